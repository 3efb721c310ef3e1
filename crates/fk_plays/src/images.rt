//! The images of the shelf that a scenario's jobs need.
ghost use Rattle.std.specs.Prelude.{◌≡◌, ◌≤◌, [], Ok, Err, Some, IfOk, IfErr, IsSome, option_map};
ghost use Rattle.fk_causes.specs.Causes.{Rose, StandsUnless};
ghost use Rattle.fk_commands.specs.Prepared.{IsRefusal};
ghost use Rattle.fk_commands.specs.Status.{is_shelf_fault};
ghost use Rattle.fk_plays.specs.Images.{needed, Finds, FindsImages, NeedImage, UnlessFailed};

use fk_causes::Shelf;
use fk_commands::{Status, file_of, image_of};
use fk_finish::ValidImage;
use fk_model::{JobSpec, List as Items};
use fk_runs::maker_of;
use std::alloc::Global;

/// The name of the image that a job behind others needs of the shelf: that of a restore which none of them makes.
fn needed<'a>(before: &[JobSpec], job: &'a JobSpec) -> Option<&'a str>
    ensures { option_map (λ name. name.now) result ≡ needed before.now job.now }
{
    match job {
        JobSpec::Checkpoint { .. } => None,
        JobSpec::Restore { image, .. } => match maker_of(before, image.as_str()) {
            Some(_) => None,
            None => Some(image.as_str()),
        },
    }
}

/// The image that the shelf has under a name.
fn image_in<H: Shelf>(alloc: Global, shelf: &mut H, name: &str) -> Result<ValidImage, Status>
    ensures found { IfOk result (λ image. Finds (H.files shelf.old) (Some name.now) (Ok (Some image))) }
    ensures lack { IfErr result (λ status. UnlessFailed status (Finds (H.files shelf.old) (Some name.now) (Err status))) }
    ensures refusal { IfErr result (IsRefusal ⊥ (Rose (H.failed_gets shelf.old) (H.failed_gets shelf.new))) }
    ensures kept_gets { StandsUnless is_shelf_fault (H.failed_gets shelf.old) (H.failed_gets shelf.new) result }
    ensures later { H.failed_gets shelf.old ≤ H.failed_gets shelf.new }
    ensures same_files { H.files shelf.new ≡ H.files shelf.old }
    ensures same_puts { H.failed_puts shelf.new ≡ H.failed_puts shelf.old }
{
    let file = format!(in alloc; "{name}.img")?;
    let bytes = file_of(alloc, shelf, file.as_str(), name)?;
    let image = image_of(alloc, name, &bytes)?;
    Ok(ValidImage::new(alloc, image)?)
}

/// The image that a job behind others needs of the shelf, if it needs one.
fn image_for<H: Shelf>(
    alloc: Global,
    shelf: &mut H,
    before: &[JobSpec],
    job: &JobSpec,
) -> Result<Option<ValidImage>, Status>
    ensures found { IfOk result (λ image. Finds (H.files shelf.old) (needed before.now job.now) (Ok image)) }
    ensures lack { IfErr result (λ status. UnlessFailed status (Finds (H.files shelf.old) (needed before.now job.now) (Err status))) }
    ensures refusal { IfErr result (IsRefusal ⊥ (Rose (H.failed_gets shelf.old) (H.failed_gets shelf.new) × IsSome (needed before.now job.now))) }
    ensures kept_gets { StandsUnless is_shelf_fault (H.failed_gets shelf.old) (H.failed_gets shelf.new) result }
    ensures later { H.failed_gets shelf.old ≤ H.failed_gets shelf.new }
    ensures same_files { H.files shelf.new ≡ H.files shelf.old }
    ensures same_puts { H.failed_puts shelf.new ≡ H.failed_puts shelf.old }
{
    match needed(before, job) {
        Some(name) => Ok(Some(image_in(alloc, shelf, name)?)),
        None => Ok(None),
    }
}

/// The images that jobs need of the shelf, in their order: one for each, or none.
///
/// # Errors
///
/// Of the first job that needs one: `Absent` where the shelf has none under its name, `BadImage` where the bytes there spell none, and
/// `ShelfFault` where the get of them failed. `NoMemory` where there is no memory for them.
pub fn images_for<H: Shelf>(
    alloc: Global,
    shelf: &mut H,
    jobs: &[JobSpec],
) -> Result<Items<Option<ValidImage>>, Status>
    ensures found { IfOk result (λ images. FindsImages (H.files shelf.old) [] jobs.now (Ok images)) }
    ensures lack { IfErr result (λ status. UnlessFailed status (FindsImages (H.files shelf.old) [] jobs.now (Err status))) }
    ensures refusal { IfErr result (IsRefusal ⊥ (Rose (H.failed_gets shelf.old) (H.failed_gets shelf.new) × NeedImage [] jobs.now)) }
    ensures kept_gets { StandsUnless is_shelf_fault (H.failed_gets shelf.old) (H.failed_gets shelf.new) result }
    ensures later { H.failed_gets shelf.old ≤ H.failed_gets shelf.new }
    ensures same_files { H.files shelf.new ≡ H.files shelf.old }
    ensures same_puts { H.failed_puts shelf.new ≡ H.failed_puts shelf.old }
{
    let mut images = Items::new(alloc);
    while let Some(job) = jobs.get(images.len()) {
        let image = image_for(alloc, shelf, &jobs[..images.len()], job)?;
        images.push(image)?;
    }
    Ok(images)
}
