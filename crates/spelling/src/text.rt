//! The text that spells an input: items with spaces between them.
//!
//! - `N`: a number from 0 to 65535, which is two bytes
//! - `K*N`: the number N, K times
//! - `byte=B`: a single byte
//! - `|`: nothing, for the eye
//! - `version=V`: the version, which is 1 where no item gives it
//! - `length=L`: the length stated, which is right where no item gives it
//! - `given=G`: the input ends after G bytes
//!
//! Numbers and single bytes are in order what follows the version: the eleven counts, and then the rows of the tables.
ghost use Rattle.std.specs.Prelude.{◌≡◌, IfOk};
ghost use Rattle.spelling.specs.declared.text.SpellError.TheVariants.{NotAnItem, NoMemory};
ghost use Rattle.spelling.specs.Text.{IsItem, told_by, with_item, nothing_told, stated_length, input_of, Spells};

use std::alloc::{AllocError, Global};
use std::num::ParseIntError;
use std::str::FromStr;

/// Why items spell no input.
#[derive(Clone, Copy)]
pub enum SpellError {
    /// A word is none of the items.
    NotAnItem,
    /// There is no memory for the bytes.
    NoMemory,
}

impl From<ParseIntError> for SpellError {
    ghost from_gives = { λ _ r. r ≡ NotAnItem };

    fn from(_e: ParseIntError) -> SpellError {
        SpellError::NotAnItem
    }
}

impl From<AllocError> for SpellError {
    ghost from_gives = { λ _ r. r ≡ NoMemory };

    fn from(_e: AllocError) -> SpellError {
        SpellError::NoMemory
    }
}

/// One item of the text.
#[derive(Clone, Copy)]
enum Item {
    Numbers { times: u16, number: u16 },
    Byte(u8),
    Bar,
    Version(u8),
    Length(u32),
    Given(usize),
}

impl FromStr for Item {
    type Err = ParseIntError;

    ghost from_str_gives = { λ word r. IfOk r (IsItem word) };

    fn from_str(word: &str) -> Result<Item, ParseIntError> {
        if word == "|" {
            return Ok(Item::Bar);
        }
        if let Some(byte) = word.strip_prefix("byte=") {
            return Ok(Item::Byte(byte.parse()?));
        }
        if let Some(version) = word.strip_prefix("version=") {
            return Ok(Item::Version(version.parse()?));
        }
        if let Some(length) = word.strip_prefix("length=") {
            return Ok(Item::Length(length.parse()?));
        }
        if let Some(given) = word.strip_prefix("given=") {
            return Ok(Item::Given(given.parse()?));
        }
        let (times, number) = word.split_once('*').unwrap_or(("1", word));
        Ok(Item::Numbers {
            times: times.parse()?,
            number: number.parse()?,
        })
    }
}

/// An input as far as its items are read.
#[derive(Drop)]
struct Draft {
    version: u8,
    length: Option<u32>,
    given: Option<usize>,
    /// what follows the version
    rest: Vec<u8>,
}

impl Draft {
    /// Nothing is told yet.
    fn new(heap: Global) -> Draft
        ensures nothing { told_by result ≡ nothing_told }
    {
        Draft {
            version: 1,
            length: None,
            given: None,
            rest: Vec::new(heap),
        }
    }

    /// Takes in one item more.
    fn take_in(&mut self, item: Item) -> Result<(), AllocError>
        ensures told { IfOk result (λ _. told_by self.new ≡ with_item item (told_by self.old)) }
    {
        match item {
            Item::Numbers { times, number } => {
                // the number is written so many times
                for _ in 0..times {
                    self.rest.extend_from_slice(&number.to_be_bytes())?;
                }
            }
            Item::Byte(byte) => self.rest.push(byte)?,
            Item::Bar => {}
            Item::Version(version) => self.version = version,
            Item::Length(length) => self.length = Some(length),
            Item::Given(given) => self.given = Some(given),
        }
        Ok(())
    }

    /// The length to state: where no item does, the version and what follows it.
    fn stated_length(&self) -> u32
        ensures stated { result ≡ stated_length (told_by self.now) }
    {
        let right = u32::try_from(self.rest.len().saturating_add(1)).unwrap_or(u32::MAX);
        self.length.unwrap_or(right)
    }

    /// The bytes of the input.
    fn bytes(&self, heap: Global) -> Result<Vec<u8>, AllocError>
        ensures input { IfOk result (λ bytes. bytes.items ≡ input_of (told_by self.now)) }
    {
        let mut bytes = Vec::new(heap);
        bytes.extend_from_slice(&self.stated_length().to_be_bytes())?;
        bytes.push(self.version)?;
        bytes.extend_from_slice(self.rest.as_slice())?;
        if let Some(given) = self.given {
            bytes.truncate(given);
        }
        Ok(bytes)
    }
}

/// The bytes of the input that the items spell.
pub fn spelled(heap: Global, items: &str) -> Result<Vec<u8>, SpellError>
    ensures spells { IfOk result (λ bytes. Spells items.now bytes.items) }
{
    let mut draft = Draft::new(heap);
    for word in items.split_whitespace() {
        draft.take_in(word.parse::<Item>()?)?;
    }
    Ok(draft.bytes(heap)?)
}
