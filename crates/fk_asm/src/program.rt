//! The lines that are read of a text, and the addresses of their labels.
ghost use Rattle.std.specs.Prelude.{◌≡◌, ℕ, ◌≤◌, ◌++◌, ◌∷◌, List, [], IfOk, option_map, map};
ghost use Rattle.fk_asm.specs.Reasons.{GivesOrReason};
ghost use Rattle.fk_asm.specs.Program as definitions;
ghost use Rattle.fk_asm.specs.Labels as labels;
ghost use Rattle.fk_asm.specs.Labels.{line_view, label_address_in, IsNew};

use crate::lines::{label_of, unlabelled};
use crate::operands::is_label;
use crate::operations::{Item, item_of};
use crate::reason::Reason;
use fk_model::NoMemory;
use std::alloc::Global;
use std::collections::BTreeMap;
use std::marker::Model;

/// The words that a program has at most: those of 256 pages of 64 words.
const MOST_WORDS: u32 = 16384;

/// A line: its number, its label and its word, where it has them.
#[derive(Clone, Copy)]
pub struct Line<'a> {
    pub number: u32,
    pub label: Option<&'a [u8]>,
    pub item: Option<Item<'a>>,
}

/// The address of a name.
fn address_at(addresses: &BTreeMap<&[u8], u32>, name: &[u8]) -> Option<u32>
    ensures { result ≡ label_address_in addresses.now name.now }
{
    match addresses.get(name) {
        Some(address) => Some(*address),
        None => None,
    }
}

/// The addresses with that of one more name.
fn with_name<'a>(
    mut addresses: BTreeMap<&'a [u8], u32>,
    name: &'a [u8],
    address: u32,
) -> Result<BTreeMap<&'a [u8], u32>, NoMemory>
    ensures { IfOk result (λ more. (q : List ℕ) → label_address_in more q ≡ labels.with_name name.now address (label_address_in addresses.entry) q) }
{
    match addresses.insert(name, address) {
        Ok(_) => Ok(addresses),
        Err(_) => Err(NoMemory),
    }
}

/// The addresses with that of one more label, if there is one.
fn with_label<'a>(
    addresses: BTreeMap<&'a [u8], u32>,
    label: Option<&'a [u8]>,
    address: u32,
) -> Result<BTreeMap<&'a [u8], u32>, NoMemory>
    ensures { IfOk result (λ more. (q : List ℕ) → label_address_in more q
        ≡ labels.with_label (option_map (λ name. name.now) label.entry) address (label_address_in addresses.entry) q) }
{
    match label {
        Some(name) => with_name(addresses, name, address),
        None => Ok(addresses),
    }
}

/// Lines in their order. The addresses of their labels stand beside them in a map, so that a text of
/// many labels is assembled in little more than linear time.
#[derive(Drop)]
pub struct Lines<'a> {
    lines: Vec<Line<'a>>,
    addresses: BTreeMap<&'a [u8], u32>,
    size: u32,
}

impl<'a> Model for Lines<'a> {
    ghost use Rattle.std.specs.Prelude.{◌≡◌, ℕ, List as Items, map};
    ghost use Rattle.fk_asm.specs.Program.{TextLine, label_address, size as size_of};
    ghost use Rattle.fk_asm.specs.Labels as labels;

    ghost Value = { Items TextLine };

    ghost view = { λ s. map labels.line_view s.lines.items };

    ghost invariant = { λ s. ((name : Items ℕ) → labels.label_address_in s.addresses name ≡ label_address (map labels.line_view s.lines.items) name)
        × (s.size ≡ size_of (map labels.line_view s.lines.items)) };
}

impl<'a> Lines<'a> {
    /// No lines.
    pub fn new(alloc: Global) -> Lines<'a>
        ensures { result ≡ [] }
    {
        Lines {
            lines: Vec::new(alloc),
            addresses: BTreeMap::new(alloc),
            size: 0,
        }
    }

    /// How many words they place.
    pub fn size(&self) -> u32
        ensures { result ≡ definitions.size self.now }
    {
        self.size
    }

    /// The address of the label with this name.
    pub fn label_address(&self, name: &[u8]) -> Option<u32>
        ensures { result ≡ definitions.label_address self.now name.now }
    {
        address_at(&self.addresses, name)
    }

    /// The lines.
    pub fn as_slice(&self) -> &[Line<'a>]
        ensures { map line_view result.now ≡ self.now }
    {
        self.lines.as_slice()
    }

    /// These and one more at the end, whose label is new.
    ///
    /// # Errors
    ///
    /// There is no memory for one line more.
    pub fn with(self, line: Line<'a>) -> Result<Lines<'a>, NoMemory>
        requires { IsNew self (option_map (λ name. name.now) line.label) }
        ensures { IfOk result (λ more. more ≡ self.entry ++ line_view line.entry ∷ []) }
    {
        let Lines {
            mut lines,
            addresses,
            size,
        } = self;
        let addresses = with_label(addresses, line.label, size)?;
        let more = u32::from(line.item.is_some());
        let Some(size) = size.checked_add(more) else {
            return Err(NoMemory);
        };
        lines.push(line)?;
        Ok(Lines {
            lines,
            addresses,
            size,
        })
    }
}

/// Refuses an ill-formed label, and one that is defined already.
fn check_label(lines: &Lines<'_>, label: Option<&[u8]>) -> Result<(), Reason>
    ensures label { GivesOrReason (λ x. x) result (definitions.check_label lines.now (option_map (λ name. name.now) label.entry)) }
    ensures new { IfOk result (λ _. IsNew lines.now (option_map (λ name. name.now) label.entry)) }
{
    let Some(name) = label else {
        return Ok(());
    };
    if !is_label(name) {
        return Err(Reason::Form);
    }
    if lines.label_address(name).is_some() {
        return Err(Reason::Defined);
    }
    Ok(())
}

/// The line with these tokens, if it is right after those before it.
///
/// # Errors
///
/// The first reason why the line is refused after those before it.
#[tactic(auto, unfolding(crate::specs::Program::check_line))]
pub fn right_line<'a>(
    lines: &Lines<'a>,
    number: u32,
    tokens: &[&'a [u8]],
) -> Result<Line<'a>, Reason>
    ensures line { IfOk result (λ line. line_view line ≡ definitions.line_of number (map (λ token. token.now) tokens.now)) }
    ensures right { GivesOrReason (λ _. tt) result (definitions.check_line lines.now (definitions.line_of number (map (λ token. token.now) tokens.now))) }
    ensures new { IfOk result (λ line. IsNew lines.now (option_map (λ name. name.now) line.label)) }
{
    let label = label_of(tokens);
    check_label(lines, label)?;
    let item = item_of(unlabelled(tokens))?;
    if item.is_some() && lines.size() >= MOST_WORDS {
        return Err(Reason::Length);
    }
    Ok(Line {
        number,
        label,
        item,
    })
}
