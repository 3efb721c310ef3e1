//! The numbers of a scenario are words. The type of a number says so once it is read, so these calls read each, and
//! do nothing with it.
ghost use Rattle.std.specs.Prelude.{◌≡◌, true};
ghost use Rattle.std.specs.List.{list_all};
ghost use Rattle.fk_model.specs.Whole as whole;
ghost use Rattle.fk_boot.specs.Words.{has_words, HasWords};

use fk_scenario::Scenario;
use fk_scenario::entries::{ObjectEntry, Program, Spec};

/// Each number is a word.
fn read_numbers(numbers: &[u64])
    ensures { whole.are_words numbers.now ≡ true }
{
    for number in numbers {
        let _word = *number;
    }
}

/// Each word of a program is one.
fn read_programs(programs: &[Program])
    ensures { list_all (λ p. whole.are_words p.words) programs.now ≡ true }
{
    for program in programs {
        read_numbers(program.words.as_slice());
    }
}

/// The registers of a thread are words.
fn read_spec(spec: &Spec)
    ensures { has_words spec.now ≡ true }
{
    if let Spec::Thread { regs, .. } = spec {
        read_numbers(regs.as_slice());
    }
}

/// Those of each thread are.
fn read_objects(objects: &[ObjectEntry])
    ensures { list_all (λ o. has_words o.spec) objects.now ≡ true }
{
    for object in objects {
        read_spec(&object.spec);
    }
}

/// All numbers of a scenario that come into its first world are words.
pub fn read_words(scenario: &Scenario)
    ensures { HasWords scenario.now }
{
    read_programs(scenario.programs.as_slice());
    read_objects(scenario.objects.as_slice());
}
