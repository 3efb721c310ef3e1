//! The line of a run with so many processes.
ghost use Rattle.std.specs.Prelude.{◌≡◌, ◌+◌, ◌%◌, ◌^◌, IfOk, length, sum, take, string_bytes};
ghost use Rattle.std.specs.List.{flat_map};
ghost use Rattle.fk_natives.specs.Natives.{printed_by};
ghost use Rattle.fk_report.specs.Report.{states};
ghost use Rattle.fk_soak.specs.Line as definitions;

use fk_model::{NoMemory, Who};
use fk_natives::Service;
use fk_report::{End, end_word};
use std::alloc::{AllocError, Global};

/// The sum of words and a number, modulo 2^64.
fn sum_words(before: u64, words: &[u64]) -> u64
    ensures { result ≡ (before + sum words.now) % 2 ^ 64 }
{
    let mut total = before;
    for word in words {
        total = total.wrapping_add(*word);
    }
    total
}

/// The sum of the words that servers have printed, modulo 2^64.
fn sum_printed<S: Service>(services: &[(Who, S)]) -> u64
    ensures { result ≡ sum (flat_map printed_by (states S.meaning services.now)) % 2 ^ 64 }
{
    let mut total = 0;
    for (_, service) in services {
        total = sum_words(total, service.printed());
    }
    total
}

/// Their number, modulo 2^64.
fn count_printed<S: Service>(services: &[(Who, S)]) -> u64
    ensures { result ≡ length (flat_map printed_by (states S.meaning services.now)) % 2 ^ 64 }
{
    let mut count = 0u64;
    for (_, service) in services {
        count = count.wrapping_add(service.printed().len() as u64);
    }
    count
}

/// The line of what was counted.
fn line_of(alloc: Global, count: u32, end: End, words: u64, sum: u64) -> Result<String, AllocError>
    ensures { IfOk result (λ text. string_bytes text ≡ definitions.line_of count end words sum) }
{
    let word = end_word(end);
    format!(in alloc; "soak {count} end {word} words {words} sum {sum}\n")
}

/// The first of a list, so many or all.
fn first_of<T>(list: &[T], count: usize) -> &[T]
    ensures { result.now ≡ take count list.now }
{
    if count < list.len() {
        &list[..count]
    } else {
        list
    }
}

/// The line: how many processes there are, how the run has ended, and how many words their consoles were sent with what sum. These
/// are the first servers.
///
/// # Errors
///
/// There is no memory for the text.
pub fn soak_line<S: Service>(
    alloc: Global,
    count: u32,
    end: End,
    services: &[(Who, S)],
) -> Result<String, NoMemory>
    ensures { IfOk result (λ text. string_bytes text ≡ definitions.soak_line count end (states S.meaning (take count services.now))) }
{
    let consoles = first_of(services, count as usize);
    let words = count_printed(consoles);
    let sum = sum_printed(consoles);
    Ok(line_of(alloc, count, end, words, sum)?)
}
