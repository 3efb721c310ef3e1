//! Lists of numbers that take no memory of their own: what a line has, and what is found.
use fk_model::Who;

/// How many numbers a list has room for.
const ROOM: usize = 80;

/// What stands between the words of a text.
const BETWEEN: [char; 9] = [' ', ',', ':', ';', '.', '/', '|', '\n', '-'];

/// The statuses of calls, each at the place of its number.
const STATUSES: &str =
    "OK BADCALL BADHANDLE WRONGKIND OCCUPIED DEAD NULLREF NOTLOCKED NOTSTOPPED HELD NOTLINKED LINKED BADADDRESS DENIED ENDED FULL NONE NOTEMPTY WRONGTURN BADSTATE";

/// Numbers; whether more was found than a line has to tell; and whether something is wrong, so that no line is right.
#[derive(Clone, Copy)]
pub struct Numbers {
    words: [u64; ROOM],
    count: usize,
    is_part: bool,
    is_wrong: bool,
}

/// The place of a word in a list of words; their number where it isn't there.
pub fn place_of(list: &str, word: &str) -> usize {
    let mut place = 0usize;
    for other in list.split(' ') {
        if other == word {
            break;
        }
        place = place.saturating_add(1);
    }
    place
}

/// The number of a status' name, of digits, or of `0x` and hexadecimal digits.
fn number_of(word: &str) -> Option<u64> {
    if let Some(digits) = word.strip_prefix("0x") {
        return u64::from_str_radix(digits, 16).ok();
    }
    let place = place_of(STATUSES, word);
    if place < 20 {
        return Some(place as u64);
    }
    word.parse::<u64>().ok()
}

/// The numbers of a text.
pub fn numbers_of(text: &str) -> Numbers {
    let mut numbers = Numbers::none();
    numbers.take_text(text);
    numbers
}

impl Numbers {
    /// No number.
    pub fn none() -> Numbers {
        Numbers {
            words: [0; ROOM],
            count: 0,
            is_part: false,
            is_wrong: false,
        }
    }

    /// One number more.
    pub fn say(&mut self, number: u64) {
        if self.count < ROOM {
            self.words[self.count] = number;
            self.count += 1;
        } else {
            self.is_wrong = true;
        }
    }

    /// Some numbers more.
    pub fn say_all(&mut self, numbers: &[u64]) {
        for number in numbers {
            self.say(*number);
        }
    }

    /// The space and the slot of a name, where there is one.
    pub fn say_name(&mut self, name: Option<Who>) {
        if let Some(Who { space, slot }) = name {
            self.say(u64::from(space));
            self.say(u64::from(slot));
        }
    }

    /// The numbers of a text. A word that begins with a small letter is for the reader alone.
    pub fn take_text(&mut self, text: &str) {
        for word in text.split(&BETWEEN) {
            let Some(first) = word.as_bytes().first() else {
                continue;
            };
            if first.is_ascii_lowercase() {
                continue;
            }
            match number_of(word) {
                Some(number) => self.say(number),
                None => self.is_wrong = true,
            }
        }
    }

    /// A line needs only to tell the first of them.
    pub fn go_on(&mut self) {
        self.is_part = true;
    }

    /// Something is wrong.
    pub fn fail(&mut self) {
        self.is_wrong = true;
    }

    /// All of them.
    pub fn list(&self) -> &[u64] {
        let count = self.count.min(ROOM);
        &self.words[..count]
    }

    /// The number at a place, and 0 behind the last.
    pub fn at(&self, place: usize) -> u64 {
        match self.list().get(place) {
            Some(number) => *number,
            None => 0,
        }
    }

    /// The name that the numbers from a place on make; none where there are none, and where they are too large.
    pub fn name_at(&self, place: usize) -> Option<Who> {
        let numbers = self.list();
        let space = u32::try_from(*numbers.get(place)?).ok()?;
        let slot = u8::try_from(*numbers.get(place.saturating_add(1))?).ok()?;
        Some(Who { space, slot })
    }

    /// The name that the numbers from a place on make, with zeros behind the last.
    pub fn who_at(&self, place: usize) -> Who {
        Who {
            space: (self.at(place) % 0x1_0000_0000) as u32,
            slot: (self.at(place.saturating_add(1)) % 256) as u8,
        }
    }

    /// The name of what stands in a slot of the root.
    pub fn in_root(&self) -> Who {
        Who {
            space: 0,
            slot: (self.at(0) % 256) as u8,
        }
    }

    /// Whether what was found is what a line wants: all of it, or where it tells only a part, what it begins with.
    pub fn is_as(&self, wanted: &Numbers) -> bool {
        let found = self.list();
        let wants = wanted.list();
        !self.is_wrong
            && !wanted.is_wrong
            && (found == wants || (self.is_part && !wants.is_empty() && found.starts_with(wants)))
    }
}
