//! Why a restore finds no port.
use crate::jobs::names::push_space;
use fk_finish::ValidImage;
use fk_image::{Link, Rec, SpaceRec};
use fk_jobs::{Jobs, PlannedJob, Porter, Source, Task};
use fk_model::Who;
use fk_store::Store;
use lens_text::{Sheet, path_in, push_held_there};

/// Whether a pointer of an image leads out to a slot of the nester.
fn is_out(link: &Link, slot: u8) -> bool {
    match link {
        Link::Out(out) => *out == slot,
        _ => false,
    }
}

/// Whether an object of an image leads out to a slot of the nester.
fn leads_out(body: &Rec, slot: u8) -> bool {
    match body {
        Rec::Mapping { region: link, .. }
        | Rec::Region { keeper: link, .. }
        | Rec::Reference { to: link } => is_out(link, slot),
        Rec::Thread(thread) => {
            let thread = thread.get();
            let talks = match &thread.talk {
                Some(talk) => is_out(&talk.port, slot),
                None => false,
            };
            match &thread.fault {
                Some(fault) => talks | is_out(&fault.port, slot),
                None => talks,
            }
        }
        _ => false,
    }
}

/// The first object of an image's space that leads out to a slot of the nester.
fn first_in(space: &SpaceRec, slot: u8) -> Option<u8> {
    for object in space.objects.as_slice() {
        if leads_out(&object.body, slot) {
            return Some(object.slot);
        }
    }
    None
}

/// The path, from the image's root, of the first object that leads out to a slot of the nester.
fn first_out(sheet: &Sheet, spaces: &[SpaceRec], slot: u8) -> Option<String> {
    for place in 0..spaces.len() {
        if let Some(own) = first_in(&spaces[place], slot) {
            return Some(path_in(sheet, spaces, place, own));
        }
    }
    None
}

/// The slot of the nester that stands for one of the image's.
fn bound(pairs: &[(u8, u8)], slot: u8) -> u8 {
    for (out, stands) in pairs {
        if *out == slot {
            return *stands;
        }
    }
    slot
}

/// Adds the slots of the nester to which an image leads out, each with the first object that does, and with what it is bound to and what stands there.
fn push_outs(
    sheet: &Sheet,
    store: &Store,
    plan: &PlannedJob,
    pairs: &[(u8, u8)],
    spaces: &[SpaceRec],
) {
    for slot in 0..240u8 {
        if let Some(path) = first_out(sheet, spaces, slot) {
            sheet.fill(b"; it leads out to slot @ by ", slot as u64, 0, 0);
            sheet.add(path.as_str());
            let stands = bound(pairs, slot);
            sheet.fill(b", for which slot @ of ", stands as u64, 0, 0);
            push_space(sheet, store, plan.nester);
            sheet.put(b" stands, which is ");
            let who = Who {
                space: plan.nester,
                slot: stands,
            };
            push_held_there(sheet, store, store.at(who));
        }
    }
}

/// Adds the pairs to whose slot no object of an image leads.
fn push_idle_pairs(sheet: &Sheet, pairs: &[(u8, u8)], spaces: &[SpaceRec]) {
    for (out, stands) in pairs {
        if first_out(sheet, spaces, *out).is_none() {
            let (out, stands) = (*out as u64, *stands as u64);
            sheet.fill(
                b"; its pair [@, @] binds nothing: the image doesn't lead out to slot @",
                out,
                stands,
                out,
            );
        }
    }
}

/// The image that a job's plan has, or that the job has made which is to make it.
fn image_of<'a>(jobs: &'a Jobs<Porter>, source: &'a Source) -> Option<&'a ValidImage> {
    match source {
        Source::Given(Some(image)) => Some(image),
        Source::Given(None) => None,
        Source::MadeBy(maker) => jobs.ends().get(*maker)?.image(),
    }
}

/// Adds why a restore finds no port: where the image leads out, what stands for each slot there, and which pairs bind nothing.
pub fn push_noport(sheet: &Sheet, store: &Store, jobs: &Jobs<Porter>, plan: &PlannedJob, port: u8) {
    sheet.fill(
        b"what stands for slot @ of the image is no port",
        port as u64,
        0,
        0,
    );
    if let Task::Restore { pairs, source, .. } = &plan.task {
        if let Some(image) = image_of(jobs, source) {
            let spaces = image.get().spaces.as_slice();
            push_outs(sheet, store, plan, pairs.as_slice(), spaces);
            push_idle_pairs(sheet, pairs.as_slice(), spaces);
        }
    }
}
