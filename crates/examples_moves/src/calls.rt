//! Who may make which call, and whose call ends with a talk.

ghost use Rattle.std.specs.Prelude.{◌≡◌, [], ◌∷◌};
ghost use Rattle.fk_model.specs.declared.thread.Turn.TheVariants as turns;
ghost use Rattle.fk_model.specs.Talks.{talks_on};
ghost use Rattle.fk_model.specs.Moves.{is_for_porters, is_for_users};
ghost use Rattle.examples_moves.specs.Calls.{codes_where};

/// A user thread is denied the calls that count pointers and restore, a porter those of mutexes,
/// conditions and talks, but for `wait` and `fault_done`.
pub fn some_calls_are_denied()
    ensures users { codes_where is_for_porters ≡ 8 ∷ 60 ∷ 61 ∷ 62 ∷ 63 ∷ 64 ∷ 65 ∷ [] }
    ensures porters { codes_where is_for_users ≡
        21 ∷ 22 ∷ 23 ∷ 24 ∷ 25 ∷ 26 ∷ 27 ∷ 32 ∷ 36 ∷ 37 ∷ 38 ∷ 39 ∷ 40 ∷ 41 ∷ 50 ∷ 51 ∷ 52 ∷ 55 ∷ 57 ∷ 58 ∷ [] }
{}

/// The end of a talk ends the call of a client at its Receive, Send or Over, and of a server at its.
pub fn some_calls_end_with_a_talk()
    ensures clients { codes_where (talks_on turns.Client) ≡ 36 ∷ 37 ∷ 38 ∷ 40 ∷ 41 ∷ [] }
    ensures servers { codes_where (talks_on turns.Server) ≡ 50 ∷ 51 ∷ 52 ∷ 57 ∷ 58 ∷ [] }
{}
