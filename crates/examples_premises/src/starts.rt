//! With what a run of jobs may begin, and with what just not.
#![tactic(auto, unfolding(crate::specs::Starts::starts))]

ghost use Rattle.std.specs.Prelude.{Some, None, true, [], ◌∷◌};
ghost use Rattle.fk_model.specs.Places.Ptr.{Null, At};
ghost use Rattle.fk_model.specs.Objects.Body.{Port, Reference};
ghost use Rattle.fk_model.specs.Sound.{Saves, Makes, IsSoundStart};
ghost use Rattle.examples_premises.specs.Starts.{root, port, plain_port, users, nester, porter, thread, talking, faulty, name, first_with, with_more, after_births};
ghost use Rattle.examples_premises.specs.Starts.{starts_with, served_at, nested_in, works_at, lasts, serves_users, nothing_but_a_root};

/// A server at its port, beside a port that nobody serves; a nester without a job of its own; jobs, of which one binds two slots to one; the
/// longest budget. Also the root alone.
pub fn what_a_start_may_be()
    ensures full { IsSoundStart (starts_with (first_with None thread)) }
    ensures last { IsSoundStart (starts_with (after_births 256)) }
    ensures bare { IsSoundStart nothing_but_a_root }
    ensures unnamed { IsSoundStart (works_at (Saves 0 1 None None ∷ Saves 0 1 None None ∷ [])) }
    ensures again { IsSoundStart (works_at (Saves 0 1 (Some root) (Some name) ∷ Saves 0 0 None None ∷ Makes 0 1 [] ∷ Makes 0 1 [] ∷ [])) }
{}

/// Nothing is under way: nobody holds a space, not even its nester's porter; no thread has a talk or a fault; a porter has no scratch; and
/// birth numbers and moves are few.
pub fn a_start_that_is_under_way()
    ensures held { IsSoundStart (starts_with (first_with (Some (At (255 ∷ root))) thread)) → ⊥ }
    ensures talking { IsSoundStart (starts_with (first_with None talking)) → ⊥ }
    ensures faulty { IsSoundStart (starts_with (first_with None faulty)) → ⊥ }
    ensures scratch { IsSoundStart (starts_with (with_more (240 ∷ root) (Reference Null))) → ⊥ }
    ensures late { IsSoundStart (starts_with (after_births 257)) → ⊥ }
    ensures no_moves { IsSoundStart (lasts 0) → ⊥ }
    ensures too_many { IsSoundStart (lasts 1000001) → ⊥ }
{}

/// Each nester has its porter, and each porter is a nester's; each server's port is served, each served port has a server, and that has no
/// other.
pub fn a_start_without_its_servers_and_porters()
    ensures no_porter { IsSoundStart (nested_in (root ∷ nester ∷ users ∷ [])) → ⊥ }
    ensures no_nester { IsSoundStart (nested_in (root ∷ [])) → ⊥ }
    ensures stray { IsSoundStart (starts_with (with_more (255 ∷ users) porter)) → ⊥ }
    ensures unserved { IsSoundStart (served_at (port ∷ plain_port ∷ [])) → ⊥ }
    ensures no_server { IsSoundStart (served_at []) → ⊥ }
    ensures other_server { IsSoundStart (served_at (plain_port ∷ [])) → ⊥ }
    ensures two_servers { IsSoundStart (served_at (port ∷ port ∷ [])) → ⊥ }
    ensures one_more { IsSoundStart (starts_with (with_more (7 ∷ root) (Port None true))) → ⊥ }
{}

/// A job's birth number is a nester's, and that of the space at its path; it names users' slots; no nester and no
/// server lies in what it saves; no slot is bound twice, and nothing is saved twice under one name.
pub fn jobs_that_may_not_work()
    ensures elsewhere { IsSoundStart (works_at (Saves 2 1 (Some root) None ∷ [])) → ⊥ }
    ensures no_nester { IsSoundStart (works_at (Saves 1 0 None None ∷ [])) → ⊥ }
    ensures nobody { IsSoundStart (works_at (Makes 3 1 [] ∷ [])) → ⊥ }
    ensures slot { IsSoundStart (works_at (Makes 0 240 [] ∷ [])) → ⊥ }
    ensures bound_high { IsSoundStart (works_at (Makes 0 1 ((9, 240) ∷ []) ∷ [])) → ⊥ }
    ensures nester_inside { IsSoundStart (works_at (Saves 0 2 None None ∷ [])) → ⊥ }
    ensures server_inside { IsSoundStart serves_users → ⊥ }
    ensures bound_twice { IsSoundStart (works_at (Makes 0 1 ((9, 4) ∷ (9, 5) ∷ []) ∷ [])) → ⊥ }
    ensures named_twice { IsSoundStart (works_at (Saves 0 1 None (Some name) ∷ Saves 0 0 None (Some name) ∷ [])) → ⊥ }
{}
