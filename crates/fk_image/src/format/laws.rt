//! Laws of the format, each the contract of a function that does nothing.
ghost use Rattle.std.specs.Prelude.{◌≡◌, ◌↔◌, true, List, Ok, None};
ghost use Rattle.fk_image.specs.declared.image.image.Image.{Image};
ghost use Rattle.fk_image.specs.declared.image.image.SpaceRec.{SpaceRec};
ghost use Rattle.fk_image.specs.Image.Links.{all_lead};
ghost use Rattle.fk_image.specs.Image.Valid.{is_valid};
ghost use Rattle.fk_image.specs.Format.Offsets.{wrong_in};
ghost use Rattle.fk_image.specs.Format.Reading.{image_reading};
ghost use Rattle.fk_image.specs.Format.Spelling.{spelling};
ghost use Rattle.fk_image.specs.Format.Spells.{SpellsImage};

/// Bytes without a fault are the spelling of a valid image, that of no other, and the spelling of a valid
/// image has no fault.
pub fn faultless(bytes: &[u8])
    ensures spelled { (i : Image) → image_reading bytes.now ≡ Ok i → SpellsImage bytes.now i }
    ensures none { (i : Image) → SpellsImage bytes.now i → image_reading bytes.now ≡ Ok i }
    ensures one { (i j : Image) → SpellsImage bytes.now i → SpellsImage bytes.now j → i ≡ j }
{}

/// What a valid image is spelled as is read as that image.
pub fn read_again()
    ensures { (i : Image) → is_valid i ≡ true → image_reading (spelling i) ≡ Ok i }
{}

/// No wrong pointer is found exactly where all pointers lead to what their fields may hold.
pub fn led()
    ensures { (spaces : List SpaceRec) → (wrong_in spaces ≡ None) ↔ (all_lead spaces ≡ true) }
{}
