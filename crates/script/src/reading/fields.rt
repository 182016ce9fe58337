// The fields of a record: each is a space, and then a number in base ten.
ghost use Rattle.std.specs.Prelude.{◌≡◌, ◌==◌, length, OnSome};
ghost use Rattle.script.specs.Fields.{after_field, byte_field, field, number, rest_of};

use crate::cutting::len_before;
use std::str;

// At most 65,535, without sign or leading zero.
fn number(digits: &[u8]) -> Option<u16>
    ensures { result ≡ number digits.now }
{
    // `parse` takes a plus in front, and leading zeros.
    if digits.is_empty() || digits[0] == b'+' || (digits.len() > 1 && digits[0] == b'0') {
        return None;
    }
    str::from_utf8(digits).ok()?.parse().ok()
}

// What is left of a record.
#[derive(Clone, Copy)]
pub(super) struct Fields<'a> {
    rest: &'a [u8],
}

impl<'a> Fields<'a> {
    pub(super) fn of(rest: &'a [u8]) -> Fields<'a>
        ensures { rest_of result ≡ rest.now }
    {
        Fields { rest }
    }

    pub(super) fn is_empty(&self) -> bool
        ensures { result ≡ (length (rest_of self.now) == 0) }
    {
        self.rest.is_empty()
    }

    // The next field, none where it is missing or is no number.
    pub(super) fn number(&mut self) -> Option<usize>
        ensures value { result ≡ field (rest_of self.old) }
        ensures rest { OnSome result (rest_of self.new ≡ after_field (rest_of self.old)) }
    {
        let [b' ', after @ ..] = self.rest else {
            return None;
        };
        let (digits, rest) = after.split_at(len_before(after, b' '));
        self.rest = rest;
        number(digits).map(usize::from)
    }

    // The next field, none where it is not at most 255.
    pub(super) fn byte(&mut self) -> Option<u8>
        ensures value { result ≡ byte_field (rest_of self.old) }
        ensures rest { OnSome result (rest_of self.new ≡ after_field (rest_of self.old)) }
    {
        u8::try_from(self.number()?).ok()
    }
}
