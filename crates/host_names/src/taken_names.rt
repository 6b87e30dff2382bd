//! The names given to the files of an image.
ghost use Rattle.std.specs.Prelude.{◌≡◌, ◌<◌, ◌≤◌, ℕ, [], ◌∷◌, ◌++◌, length, take, true, false, MatchOption, OnOk, OnErr, IfOk, IfSome};
ghost use Rattle.std.specs.List.{HoldsAt};
ghost use Rattle.host_names.specs.HostName.{is_same_name, numbered_name, tail};
ghost use Rattle.host_names.specs.TakenNames.{is_taken, first_free, next_name};
ghost use Rattle.host_names.specs.Records.{names_of, HasEndingAt, AreTried, AreNameRecords};
ghost use Rattle.host_names.specs.Digest.{name_digest};

use crate::ending::{Ending, push_tail};
use crate::stem::put_stem;
use itoa::Buffer;
use std::alloc::{AllocError, Global};
use std::marker::Model;

/// A name that is taken.
#[derive(Drop)]
pub(crate) struct Taken {
    name: Vec<u8>,
    /// A number that is the same for all names that count as the same.
    digest: u32,
    /// How many bytes of it come before its ending.
    stem_len: usize,
    /// The numbered names made of this one are all taken below this number.
    next: usize,
}

/// The names given so far to the files of an image, in order. No two are the same, also if small
/// and capital letters count as the same.
#[derive(Drop)]
pub struct TakenNames {
    alloc: Global,
    names: Vec<Taken>,
}

impl Model for TakenNames {
    ghost use Rattle.std.specs.Prelude.{ℕ, List};
    ghost use Rattle.host_names.specs.Records.{names_of, HasEndingAt, AreTried, AreNameRecords};

    ghost Value = { List (List ℕ) };

    ghost view = { λ taken. names_of taken.names.items };

    ghost invariant = { λ taken. AreNameRecords taken.names.items };
}

impl TakenNames {
    /// No name is taken. It allocates nothing.
    pub fn new(alloc: Global) -> TakenNames
        ensures { result ≡ [] }
    {
        TakenNames {
            alloc,
            names: Vec::new(alloc),
        }
    }

    /// Removes all names.
    pub fn clear(&mut self)
        ensures { self.new ≡ [] }
    {
        self.names.clear();
    }

    /// Replaces `name` by the host name of the next file, whose name in text form is this text: the
    /// first one that is not taken. It is taken from then on. The work is to look at each taken
    /// name two or three times.
    ///
    /// An `Err` comes only if there is no memory for the name. The name is not taken then, and
    /// `name` has any bytes.
    pub fn take(
        &mut self,
        text: &[u8],
        ending: Ending,
        is_part: bool,
        name: &mut Vec<u8>,
    ) -> Result<(), AllocError>
        ensures named { OnOk result (name.new.items ≡ next_name self.old text.now ending is_part) }
        ensures taken { OnOk result (self.new ≡ self.old ++ name.new.items ∷ []) }
        ensures unchanged { OnErr result (self.new ≡ self.old) }
    {
        put_stem(name, text)?;
        let stem_len = name.len();
        push_tail(name, ending, is_part)?;
        let tail_len = name.len() - stem_len;
        let names = self.names.as_slice();
        let found = find(names, name);
        let first = first_number(names, found);
        let number = put_free(names, name, stem_len, first, ending, is_part)?;
        keep(&mut self.names, self.alloc, name, name.len() - tail_len)?;
        if let Some(place) = found {
            pass(&mut self.names, place, number + 1);
        }
        Ok(())
    }
}

/// A number that is the same for all names that count as the same.
fn digest(name: &[u8]) -> u32
    ensures { result ≡ name_digest name.now }
{
    let mut digest: u32 = 0;
    for byte in name {
        digest = digest
            .wrapping_mul(31)
            .wrapping_add(u32::from(byte.to_ascii_lowercase()));
    }
    digest
}

/// The place of the first name that is the same as this one.
fn find(names: &[Taken], name: &[u8]) -> Option<usize>
    requires { AreNameRecords names.now }
    ensures within { IfSome result (λ place. place < length names.now) }
    ensures found { MatchOption result (is_taken (names_of names.now) name.now ≡ false)
        (λ place. HoldsAt (λ taken. is_same_name taken.name.items name.now ≡ true) names.now place) }
{
    let digest = digest(name);
    for (place, taken) in names.iter().enumerate() {
        if has_name(taken, digest, name) {
            return Some(place);
        }
    }
    None
}

/// Whether a name is the same as one of some.
fn is_taken(names: &[Taken], name: &[u8]) -> bool
    requires { AreNameRecords names.now }
    ensures { result ≡ is_taken (names_of names.now) name.now }
{
    find(names, name).is_some()
}

/// Whether this record is that of the same name as this one, which has this digest.
fn has_name(taken: &Taken, digest: u32, name: &[u8]) -> bool
    requires kept { taken.now.digest ≡ name_digest taken.now.name.items }
    requires asked { digest ≡ name_digest name.now }
    ensures { result ≡ is_same_name taken.now.name.items name.now }
{
    taken.digest == digest && taken.name.eq_ignore_ascii_case(name)
}

/// The first number that may give a free name, by the record of the taken name at this place; 1 if
/// there is no such record.
fn first_number(names: &[Taken], found: Option<usize>) -> usize
    requires { IfSome found (λ place. place < length names.now) }
    ensures { MatchOption found (result ≡ 1) (λ place. HoldsAt (λ taken. result ≡ taken.next) names.now place) }
{
    match found {
        Some(place) => names[place].next,
        None => 1,
    }
}

/// Keeps a name as taken, and how many bytes of it come before its ending.
fn keep(
    names: &mut Vec<Taken>,
    alloc: Global,
    name: &[u8],
    stem_len: usize,
) -> Result<(), AllocError>
    requires records { AreNameRecords names.old.items }
    requires within { stem_len ≤ length name.now }
    requires ends { HasEndingAt name.now stem_len }
    ensures names { OnOk result (names_of names.new.items ≡ names_of names.old.items ++ name.now ∷ []) }
    ensures records { OnOk result (AreNameRecords names.new.items) }
    ensures before { OnOk result (take (length names.old.items) names.new.items ≡ names.old.items) }
    ensures unchanged { OnErr result (names.new.items ≡ names.old.items) }
{
    let kept = Vec::from_slice(alloc, name)?;
    names.push(Taken {
        name: kept,
        digest: digest(name),
        stem_len,
        next: 2,
    })?;
    Ok(())
}

/// Notes that the numbered names made of the name at this place are taken below a number.
fn pass(names: &mut [Taken], place: usize, next: usize)
    requires within { place < length names.old }
    requires records { AreNameRecords names.old }
    requires from { 1 ≤ next }
    requires tried { HoldsAt (λ taken. AreTried (names_of names.old) taken next) names.old place }
    ensures names { names_of names.new ≡ names_of names.old }
    ensures records { AreNameRecords names.new }
{
    names[place].next = next;
}

/// Replaces `name` by the first free name from this number on. Returns its number.
fn put_free(
    names: &[Taken],
    name: &mut Vec<u8>,
    stem_len: usize,
    first: usize,
    ending: Ending,
    is_part: bool,
) -> Result<usize, AllocError>
    requires records { AreNameRecords names.now }
    requires within { stem_len ≤ length name.old.items }
    requires from { 1 ≤ first }
    requires tried { (number : ℕ) → 1 ≤ number → number < first
        → is_taken (names_of names.now) (numbered_name (take stem_len name.old.items) (tail ending is_part) number) ≡ true }
    ensures number { IfOk result (λ number. number ≡ first_free (names_of names.now) (take stem_len name.old.items) (tail ending is_part)) }
    ensures named { IfOk result (λ number. name.new.items ≡ numbered_name (take stem_len name.old.items) (tail ending is_part) number) }
{
    let last = names.len() + 1;
    for number in first..last {
        put_numbered(name, stem_len, number, ending, is_part)?;
        if !is_taken(names, name) {
            return Ok(number);
        }
    }
    put_numbered(name, stem_len, last, ending, is_part)?;
    Ok(last)
}

/// Replaces a name by the numbered one that begins with the same bytes.
#[tactic(auto, unfolding(crate::specs::HostName::numbered_name, crate::specs::HostName::number_mark))]
fn put_numbered(
    name: &mut Vec<u8>,
    stem_len: usize,
    number: usize,
    ending: Ending,
    is_part: bool,
) -> Result<(), AllocError>
    ensures { OnOk result (name.new.items ≡ numbered_name (take stem_len name.old.items) (tail ending is_part) number) }
{
    name.truncate(stem_len);
    if number != 1 {
        name.extend_from_slice(b" (")?;
        name.extend_from_slice(Buffer::new().format(number).as_bytes())?;
        name.extend_from_slice(b")")?;
    }
    push_tail(name, ending, is_part)
}
