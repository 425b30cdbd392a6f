// Merge operators and prefix extractors that calls name.
use crate::call_line::CallLine;
use bytes::Bytes;
use slate_types::{ConcatOperator, FixedPrefix, MergeFault, MergeOperator, Name, PrefixExtractor};
use std::alloc::Global;

/// Appends operands, and refuses those of one key, where it has one.
pub struct Refusing {
    pub refused: Option<Bytes>,
}

impl Drop for Refusing {
    fn drop(self) {
        let Refusing { refused: _ } = self;
    }
}

impl MergeOperator for Refusing {
    ghost may_answer = { λ _ _ _ _ _. Unit {0} };

    fn merge(
        &self,
        alloc: Global,
        key: &[u8],
        existing: Option<&Bytes>,
        operand: &Bytes,
    ) -> Result<Bytes, MergeFault> {
        match &self.refused {
            Some(refused) if refused.as_slice() == key => Err(MergeFault::Refused),
            _ => ConcatOperator.merge(alloc, key, existing, operand),
        }
    }
}

/// Cuts off prefixes.
pub enum Cuts {
    /// Prefixes of one length.
    Fixed(FixedPrefix),
    /// What stands before the first digit.
    Letters(Letters),
}

impl Drop for Cuts {
    fn drop(self) {
        match self {
            Cuts::Fixed(_) => {}
            Cuts::Letters(_) => {}
        }
    }
}

/// Cuts off what stands before the first digit, at most so many bytes of it. It has none of a key that begins with a dash,
/// unless it takes dashes.
pub struct Letters {
    pub name: Name,
    pub most: usize,
    pub dashes: bool,
}

impl Drop for Letters {
    fn drop(self) {
        let Letters {
            name: _,
            most: _,
            dashes: _,
        } = self;
    }
}

impl PrefixExtractor for Cuts {
    ghost may_name = { λ _ _. Unit {0} };

    ghost may_extract = { λ _ _ _. Unit {0} };

    fn name(&self) -> &str {
        match self {
            Cuts::Fixed(fixed) => fixed.name(),
            Cuts::Letters(letters) => letters.name.as_str(),
        }
    }

    fn prefix_of<'a>(&self, key: &'a [u8]) -> Option<&'a [u8]> {
        match self {
            Cuts::Fixed(fixed) => fixed.prefix_of(key),
            Cuts::Letters(letters) => letters.prefix_of(key),
        }
    }
}

impl Letters {
    fn prefix_of<'a>(&self, key: &'a [u8]) -> Option<&'a [u8]> {
        if key.first() == Some(&b'-') && !self.dashes {
            return None;
        }
        let letters = key.get(..self.most.min(key.len()))?;
        let length = letters
            .iter()
            .position(u8::is_ascii_digit)
            .unwrap_or(letters.len());
        letters.get(..length)
    }
}

/// Whether it refuses the operands of a key.
const OPERATORS: &[(&[u8], bool)] = &[(b"concat", false), (b"refusing", true)];

/// The operator that words spell.
pub fn operator_of(line: &mut CallLine<'_>) -> Refusing {
    let refused = match line.name(OPERATORS) {
        Some(true) => Some(line.bytes()),
        _ => None,
    };
    Refusing { refused }
}

#[derive(Clone, Copy)]
enum CutsName {
    None,
    Fixed,
    Letters,
    LettersAndDashes,
}

const EXTRACTORS: &[(&[u8], CutsName)] = &[
    (b"none", CutsName::None),
    (b"fixed", CutsName::Fixed),
    (b"letters", CutsName::Letters),
    (b"letters_and_dashes", CutsName::LettersAndDashes),
];

/// The extractor that words spell, where they spell one.
pub fn extractor_of(line: &mut CallLine<'_>) -> Option<Cuts> {
    match line.name(EXTRACTORS)? {
        CutsName::None => None,
        CutsName::Fixed => Some(Cuts::Fixed(fixed_of(line)?)),
        CutsName::Letters => Some(Cuts::Letters(letters_of(line, false))),
        CutsName::LettersAndDashes => Some(Cuts::Letters(letters_of(line, true))),
    }
}

/// The extractor of prefixes of one length, which is below 256.
pub fn fixed_of(line: &mut CallLine<'_>) -> Option<FixedPrefix> {
    let Ok(length) = u8::try_from(line.number()) else {
        line.unread();
        return None;
    };
    let made = FixedPrefix::new(line.alloc(), length);
    line.made(made)
}

fn letters_of(line: &mut CallLine<'_>, dashes: bool) -> Letters {
    let name = Name::of(line.string());
    let most = line.size();
    Letters { name, most, dashes }
}
