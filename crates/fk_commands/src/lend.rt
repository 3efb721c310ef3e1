//! A scenario and an image, lent to who looks at them.
ghost use Rattle.std.specs.Prelude.{◌≡◌, ◌≤◌, true, length, map, string_bytes};
ghost use Rattle.fk_model.specs.Answers.{answer, reply_words};
ghost use Rattle.fk_responders.specs.Notes.{note_of, watches};
ghost use Rattle.fk_image.specs.Image.Valid.{is_valid};
ghost use Rattle.fk_image.specs.declared.image.image.Image.{Image};
ghost use Rattle.fk_image.specs.Format.Reading.{image_reading};
ghost use Rattle.fk_scenario.specs.Scenario.Kept.{KeepsScenario, HasRules};
ghost use Rattle.fk_scenario.specs.Scenario.Reading.{scenario_reading};
ghost use Rattle.fk_scenario.specs.Scenario.Rules.{server_rules};
ghost use Rattle.fk_scenario.specs.declared.scenario.scenario.Scenario.{Scenario};
ghost use Rattle.fk_commands.specs.Lent.{IsLent};
ghost use Rattle.fk_commands.specs.Prepared.{IsScenarioFail, IsImageFail};
ghost use Rattle.fk_commands.specs.declared.status.Status.{Status};

use crate::image::image_of;
use crate::scenario::scenario_in;
use crate::status::Status;
use fk_image::Image;
use fk_model::{Reply, Rule};
use fk_responders::{Note, Observer, Responder, Table, Watch, reply_by, rule_name, watches};
use fk_scenario::Scenario;
use std::alloc::Global;

/// The rules that have a responder.
const RULES: [Rule; 3] = [Rule::Echo, Rule::Feed, Rule::Sum];

/// The watches, each of which has an observer.
const WATCHES: [Watch; 3] = [Watch::All, Watch::Replies, Watch::Said];

/// Who looks at a scenario. What a call may make of it, from the reader before to the reader after, its two members say. Who lends knows no more of
/// them, so a clause by them says that the call was made.
pub trait ScenarioReader {
    ghost looks: { Self → Scenario → Self → Type 0 };

    ghost hears: { Self → Status → Self → Type 0 };

    /// It looks at one, by the table of the three responders, which has the rules of its native servers.
    fn scenario(&mut self, table: &Table, scenario: &Scenario)
        requires keeps { KeepsScenario scenario.now }
        requires rules { HasRules (map (λ r. r.rule) table.now.list.items) scenario.now }
        requires table { map (λ r. (string_bytes r.name, r.rule)) table.now.list.items ≡ server_rules }
        ensures { looks self.old scenario.now self.new };

    /// It hears why there is none.
    fn refused(&mut self, status: &Status)
        ensures { hears self.old status.now self.new };
}

/// Who looks at an image. What a call may make of it its two members say, as those of a `ScenarioReader` do.
pub trait ImageReader {
    ghost looks: { Self → Image → Self → Type 0 };

    ghost hears: { Self → Status → Self → Type 0 };

    /// It looks at one.
    fn image(&mut self, image: &Image)
        requires valid { is_valid image.now ≡ true }
        ensures { looks self.old image.now self.new };

    /// It hears why there is none.
    fn refused(&mut self, status: &Status)
        ensures { hears self.old status.now self.new };
}

/// Lends the scenario that a text is, by a table of the three responders and the three observers; or says why the text is none, as `scenario_in` has it.
pub fn lend_scenario<W: ScenarioReader>(alloc: Global, text: &[u8], reader: &mut W)
    ensures { IsLent (λ scenario. W.looks reader.old scenario reader.new) (λ status. W.hears reader.old status reader.new)
        IsScenarioFail (scenario_reading server_rules text.now) }
{
    let mut list = Vec::new(alloc);
    for rule in &RULES {
        let rule = *rule;
        let Ok(name) = String::from_str(alloc, rule_name(rule)) else {
            return reader.refused(&Status::NoMemory);
        };
        let Ok(call) = Box::new(
            alloc,
            move |config: &[u64], position: u64, request: &[u64]| -> Reply
                requires { length request.now ≤ 64 }
                ensures { reply_words result ≡ answer rule config.now position request.now }
            { reply_by(rule, config, position, request) },
        ) else {
            return reader.refused(&Status::NoMemory);
        };
        if list.push(Responder::new(name, rule, call)).is_err() {
            return reader.refused(&Status::NoMemory);
        }
    }
    let mut observers = Vec::new(alloc);
    for watch in &WATCHES {
        let watch = *watch;
        let Ok(call) = Box::new(
            alloc,
            move |note: &Note| -> bool
                ensures { result ≡ watches watch (note_of note.now) }
            { watches(watch, note) },
        ) else {
            return reader.refused(&Status::NoMemory);
        };
        if observers.push(Observer::new(watch, call)).is_err() {
            return reader.refused(&Status::NoMemory);
        }
    }
    let table = Table { list, observers };
    match scenario_in(alloc, &table, text) {
        Ok(scenario) => reader.scenario(&table, &scenario),
        Err(status) => reader.refused(&status),
    }
}

/// Lends the image that the bytes of a file with this name are; or says why they are none, as `image_of` has it.
pub fn lend_image<W: ImageReader>(alloc: Global, name: &str, bytes: &[u8], reader: &mut W)
    ensures { IsLent (λ image. W.looks reader.old image reader.new) (λ status. W.hears reader.old status reader.new)
        (IsImageFail name.now) (image_reading bytes.now) }
{
    match image_of(alloc, name, bytes) {
        Ok(image) => reader.image(&image),
        Err(status) => reader.refused(&status),
    }
}
