//! What words ask for.
#![tactic(auto)]

ghost use Rattle.std.specs.Prelude.{◌≡◌, [], ◌∷◌};
ghost use Rattle.fk_model.specs.declared.instruction.Act.TheVariants.{Put, Jump, Load, Store, Halt, Call};
ghost use Rattle.fk_model.specs.Instructions.{next};
ghost use Rattle.examples_moves.specs.Instructions.{asked, sums, shifts_and_quotients, accesses, jumps, others};

/// Sums, differences, products, addresses and the counter wrap; a number has 32 bits, and only one
/// that is added has a sign. A shift by 64 leaves 0; a quotient or a rest by zero halts with code
/// 1. Jumps go to 7, or on to the next instruction at 10. Fields that an operation doesn't use
/// don't count; an unknown operation, and one of the bits 32 to 43, halt with code 3.
pub fn words_ask_for_what_their_fields_name()
    ensures sums { asked sums ≡
        Put 9 12 ∷ Put 9 11 ∷ Put 9 18446744073709551614 ∷ Put 9 18446744073709551604 ∷ Put 9 8
        ∷ Put 9 14 ∷ Put 9 6 ∷ Put 9 17 ∷ Put 9 18446744073709551615 ∷ [] }
    ensures shifts { asked shifts_and_quotients ≡
        Put 9 12288 ∷ Put 9 0 ∷ Put 9 18014398509481983 ∷ Put 9 0 ∷ Put 9 1537228672809129301
        ∷ Put 9 3 ∷ Halt 1 ∷ Halt 1 ∷ [] }
    ensures addresses { asked accesses ≡ Load 9 17 ∷ Load 9 4 ∷ Load 9 4294967307 ∷ Store 17 10 ∷ [] }
    ensures jumps { asked jumps ≡ Jump 7 ∷ Jump 7 ∷ Jump 10 ∷ Jump 10 ∷ Jump 7 ∷ Jump 7 ∷ Jump 10 ∷ Jump 10 ∷ [] }
    ensures wraps { next 18446744073709551615 ≡ 0 }
    ensures others { asked others ≡
        Halt 0 ∷ Put 9 4294967295 ∷ Put 9 7 ∷ Call ∷ Halt 3 ∷ Halt 3 ∷ Halt 3 ∷ Halt 3 ∷ [] }
{}
