//! Valid images.
ghost use Rattle.std.specs.Prelude.{◌≡◌, true, IfOk};
ghost use Rattle.fk_image.specs.Image.Valid.{is_valid};

use fk_image::Image;
use fk_model::NoMemory;
use std::alloc::Global;
use std::marker::Model;
use std::sync::Arc;

/// A valid image, which may stand at several places and takes its memory once. Contracts see the image alone.
#[derive(Drop)]
pub struct ValidImage {
    image: Arc<Image, Global>,
}

impl Model for ValidImage {
    ghost use Rattle.std.specs.Prelude.{◌≡◌, true};
    ghost use Rattle.std.specs.Arc.{arc_value};
    ghost use Rattle.fk_image.specs.declared.image.image.Image as images;
    ghost use Rattle.fk_image.specs.Image.Valid.{is_valid};

    ghost Value = { images.Image };

    ghost view = { λ s. arc_value s.image };

    ghost invariant = { λ s. is_valid (arc_value s.image) ≡ true };
}

impl ValidImage {
    /// A valid image.
    ///
    /// # Errors
    ///
    /// There is no memory to share it from.
    pub fn new(alloc: Global, image: Image) -> Result<ValidImage, NoMemory>
        requires { is_valid image ≡ true }
        ensures { IfOk result (λ valid. valid ≡ image) }
    {
        Ok(ValidImage {
            image: Arc::new(alloc, image)?,
        })
    }

    /// The image.
    pub fn get(&self) -> &Image
        ensures same { result.now ≡ self.now }
        ensures valid { is_valid self.now ≡ true }
    {
        &self.image
    }

    /// This image at one more place. Nothing is copied.
    ///
    /// # Errors
    ///
    /// It stands at more places than can be counted.
    pub fn share(&self) -> Result<ValidImage, NoMemory>
        ensures { IfOk result (λ valid. valid ≡ self.now) }
    {
        Ok(ValidImage {
            image: Arc::try_clone(&self.image)?,
        })
    }
}
