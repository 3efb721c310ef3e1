//! What an object leads to otherwise than by a pointer is told of it.
ghost use Rattle.std.specs.Prelude.{◌≡◌, ◌≢◌, ℕ, Some, false, true};
ghost use Rattle.fk_model.specs.declared.body.Body.{Body};
ghost use Rattle.fk_store_graph.specs.Hints.Leads as leads_of;
ghost use Rattle.fk_store_graph.specs.declared.hints.lead.Lead.{Lead};
ghost use Rattle.fk_store_graph.specs.declared.hints.lead.Sort.TheVariants.{Pointer};
ghost use Rattle.fk_store_cells.specs.declared.objects.entry.Entry.{Entry};
ghost use Rattle.fk_store_cells.specs.declared.objects.entry.Told.TheVariants.{Many};
ghost use Rattle.fk_store_cells.specs.Objects.Filed.{key_of, entry_under};
ghost use Rattle.fk_store_graph.specs.Linked.Bodied.{body_under, Tells, told_by, told_with as hints_with, HasFault, IsTold, AreTold, Retells, StillTold};

use crate::hints::{Lead, Sort, led, led_by_fault};
use crate::leads::may_tell;
use fk_model::{Body, Fault};
use fk_store_cells::objects::{Hints, Objects, Told};

/// All objects to which a body leads are told of its key; what the others lead to was told before.
pub fn tell(objects: &mut Objects, key: u32, body: &Body)
    requires here { body_under objects.old key ≡ Some body.now }
    requires others { (j : ℕ) (b : Body) (i : ℕ) (l : Lead) → j ≢ key → body_under objects.old j ≡ Some b → leads_of.led b i ≡ Some l → IsTold objects.old l j }
    ensures told { AreTold objects.new }
    ensures same { Retells objects.old objects.new }
{
    if !may_tell(body) {
        return;
    }
    tell_field(objects, key, led(body, 2));
    tell_field(objects, key, led(body, 5));
}

/// Who has taken the fault of the thread under a key is told of its key; what that and the others lead to else was told before.
pub fn tell_fault(objects: &mut Objects, key: u32, fault: Option<Fault>)
    requires here { HasFault objects.old key fault }
    requires served { (b : Body) (l : Lead) → body_under objects.old key ≡ Some b → leads_of.led b 2 ≡ Some l → IsTold objects.old l key }
    requires others { (j : ℕ) (b : Body) (i : ℕ) (l : Lead) → j ≢ key → body_under objects.old j ≡ Some b → leads_of.led b i ≡ Some l → IsTold objects.old l j }
    ensures told { AreTold objects.new }
    ensures same { Retells objects.old objects.new }
{
    tell_field(objects, key, led_by_fault(fault, 5));
}

/// An object is told of a key that leads there like this, if it does.
fn tell_field(objects: &mut Objects, key: u32, lead: Option<Lead>)
    ensures told { (l : Lead) → lead ≡ Some l → IsTold objects.new l key }
    ensures kept { StillTold objects.old objects.new }
    ensures same { Retells objects.old objects.new }
{
    if let Some(lead) = lead {
        note(objects, key, lead);
    }
}

/// An object is told of a key that leads there like this, if the object is there.
fn note(objects: &mut Objects, key: u32, lead: Lead)
    ensures told { IsTold objects.new lead key }
    ensures kept { StillTold objects.old objects.new }
    ensures same { Retells objects.old objects.new }
{
    if let Some(to) = objects.key(lead.to) {
        note_under(objects, key, lead, to);
    }
}

/// The object under a key is told of another that leads there like this. Of those that may lead there,
/// one that doesn't any more is forgotten.
fn note_under(objects: &mut Objects, key: u32, lead: Lead, to: u32)
    requires { key_of objects.old lead.to ≡ Some to }
    ensures told { IsTold objects.new lead key }
    ensures kept { StillTold objects.old objects.new }
    ensures same { Retells objects.old objects.new }
{
    objects.filed();
    if let Some(entry) = objects.entry(to) {
        let hints = entry.hints;
        let told = told_anew(objects, key, lead, told_of(hints, lead.sort));
        objects.tell(to, told_with(hints, lead.sort, told));
    }
}

/// What is told once the object under a key leads there.
fn told_anew(objects: &Objects, key: u32, lead: Lead, told: Told) -> Told
    requires { lead.sort ≡ Pointer → told ≡ Many }
    ensures told { Tells result key }
    ensures kept { (j : ℕ) (b : Body) (i : ℕ) → body_under objects.now j ≡ Some b → leads_of.led b i ≡ Some lead → Tells told j → Tells result j }
{
    match told {
        Told::Nobody => Told::One(key),
        Told::One(other) => one_more(objects, key, lead, other),
        Told::Many => Told::Many,
    }
}

/// What is told once the object under a key leads there, and nobody but this other one did.
fn one_more(objects: &Objects, key: u32, lead: Lead, other: u32) -> Told
    requires { lead.sort ≢ Pointer }
    ensures told { Tells result key }
    ensures kept { (b : Body) (i : ℕ) → body_under objects.now other ≡ Some b → leads_of.led b i ≡ Some lead → Tells result other }
{
    if other == key {
        return Told::One(key);
    }
    if leads(objects, other, lead) {
        Told::Many
    } else {
        Told::One(key)
    }
}

/// Who may lead to an object as this.
pub fn told_of(hints: Hints, sort: Sort) -> Told
    ensures { result ≡ told_by sort hints }
{
    match sort {
        Sort::Pointer => Told::Many,
        Sort::Served => hints.served,
        Sort::Taken => hints.taken,
    }
}

fn told_with(hints: Hints, sort: Sort, told: Told) -> Hints
    ensures { result ≡ hints_with sort told hints }
{
    match sort {
        Sort::Pointer => hints,
        Sort::Served => Hints {
            served: told,
            ..hints
        },
        Sort::Taken => Hints {
            taken: told,
            ..hints
        },
    }
}

/// The object under a key leads there otherwise than by a pointer; false where nothing is.
fn leads(objects: &Objects, key: u32, lead: Lead) -> bool
    requires { lead.sort ≢ Pointer }
    ensures { result ≡ false → (b : Body) (i : ℕ) → body_under objects.now key ≡ Some b → leads_of.led b i ≢ Some lead }
{
    match objects.entry(key) {
        None => false,
        Some(entry) => leads_there(&entry.body, lead),
    }
}

/// A body leads there otherwise than by a pointer.
fn leads_there(body: &Body, lead: Lead) -> bool
    requires { lead.sort ≢ Pointer }
    ensures { result ≡ false → (i : ℕ) → leads_of.led body.now i ≢ Some lead }
{
    if is_lead(led(body, 2), lead) {
        return true;
    }
    is_lead(led(body, 5), lead)
}

fn is_lead(led: Option<Lead>, lead: Lead) -> bool
    ensures { result ≡ false → led ≢ Some lead }
{
    match led {
        None => false,
        Some(other) => other.to == lead.to && other.sort == lead.sort,
    }
}
