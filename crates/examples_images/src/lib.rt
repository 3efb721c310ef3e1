//! Worked examples of an image's form: spaces that stand in order and some that don't, pointers that are right and the first that is
//! wrong; and a statement of order that is nearly the form's, which spaces refute.
//!
//! It stands on `laws_image_faults` and on `fk_image`; nothing stands on it. Each example is a function that does nothing and ensures
//! what is so.
#![tactic(auto)]

ghost use Rattle.fk_image.specs.Form.Order.{AreInOrder};
ghost use Rattle.fk_image.specs.Form.Standing.{AllRight, IsFirstWrong};
ghost use Rattle.examples_images.specs.Images.{by_depth, by_breadth, falling, BehindParentsIsInOrder};
ghost use Rattle.examples_images.specs.Images.{two_servers, one_server, maps_a_port};

/// Spaces one beneath the other, and then a brother, stand in order, also where a slot is below that of the space before. Spaces by
/// breadth don't, though each stands behind its parent and brothers rise; nor do brothers whose slots fall.
pub fn spaces_stand_in_order()
    ensures by_depth { AreInOrder by_depth }
    ensures by_breadth { AreInOrder by_breadth → ⊥ }
    ensures falling { AreInOrder falling → ⊥ }
    ensures nearly { BehindParentsIsInOrder → ⊥ }
{}

/// Two clients at one port, each with a server of its own, are right; a thread may serve at a port of its space without a talk
/// of its own. With one server for both, the second client's server is wrong, at its tag and not at the client's beginning. A mapping of a
/// port is wrong at the pointer's tag.
pub fn pointers_are_wrong()
    ensures right { AllRight two_servers }
    ensures again { IsFirstWrong one_server 479 }
    ensures mapping { IsFirstWrong maps_a_port 33 }
{}
