//! Repetitions, variables and numbers in the texts of cases, replaced.

ghost use Rattle.std.specs.Prelude.{◌≡◌, ◌<◌, ◌≤◌, IfOk, IfSome, length};

use crate::words::{number_of, push_number, until_no_letter};
use crate::wrong::Wrong;
use som_test_report::Variable;
use std::alloc::Global;

/// The numbers of the turns of the repetitions around a place.
#[derive(Clone, Copy)]
pub struct Turns {
    inner: Option<u64>,
    outer: Option<u64>,
}

impl Turns {
    /// No repetition.
    pub const NONE: Turns = Turns {
        inner: None,
        outer: None,
    };

    fn within(&self, turn: u64) -> Turns {
        Turns {
            inner: Some(turn),
            outer: self.inner,
        }
    }

    // The number that a name stands for in a repetition.
    fn named(&self, name: &[u8]) -> Option<u64> {
        match name {
            b"i" => self.inner,
            b"j" => self.outer,
            _ => None,
        }
    }
}

// What a form leaves to be written: a body so often, and then what comes after the form.
#[derive(Clone, Copy)]
struct Form<'a> {
    count: u64,
    body: &'a [u8],
    after: &'a [u8],
}

impl<'a> Form<'a> {
    // A form that has been written.
    fn written(after: &'a [u8]) -> Form<'a>
        ensures body { length result.body.now ≡ 0 }
        ensures after { result.after.now ≡ after.now }
    {
        Form {
            count: 0,
            body: &[],
            after,
        }
    }
}

// How many copies of a body are added at a time.
const AT_A_TIME: u64 = 1_000;

/// Replaces the forms of texts: repetitions, variables and numbers.
#[derive(Clone, Copy)]
pub struct Expansion<'v> {
    pub alloc: Global,
    pub variables: &'v [Variable],
}

impl Expansion<'_> {
    /// Adds a text with its repetitions, variables and numbers replaced. The forms of single bytes stay.
    #[cycle(texts)]
    pub fn expand(&self, text: &[u8], turns: Turns, out: &mut Vec<u8>) -> Result<(), Wrong> {
        let mut rest = text;
        while let Some(form) = self.next_form(rest, turns, out)? {
            self.add_turns(form.body, form.count, turns, out)?;
            rest = form.after;
        }
        Ok(())
    }

    // Adds a body so often.
    #[cycle(texts)]
    fn add_turns(
        &self,
        body: &[u8],
        count: u64,
        turns: Turns,
        out: &mut Vec<u8>,
    ) -> Result<(), Wrong> {
        if !body.contains(&b'$') {
            return self.add_copies(body, count, out);
        }
        for turn in 0..count {
            self.expand(body, turns.within(turn), out)?;
        }
        Ok(())
    }

    // Adds a text up to its first form, and what of that can be written at once.
    fn next_form<'a>(
        &self,
        text: &'a [u8],
        turns: Turns,
        out: &mut Vec<u8>,
    ) -> Result<Option<Form<'a>>, Wrong>
        ensures body { IfOk result (λ next. IfSome next (λ form. length form.body.now < length text.now)) }
        ensures after { IfOk result (λ next. IfSome next (λ form. length form.after.now < length text.now)) }
    {
        let Some((plain, form)) = until_form(text) else {
            out.extend_from_slice(text)?;
            return Ok(None);
        };
        out.extend_from_slice(plain)?;
        Ok(Some(self.form(form, turns, out)?))
    }

    // Adds a body without forms so often, as many at a time as there can be.
    fn add_copies(&self, body: &[u8], count: u64, out: &mut Vec<u8>) -> Result<(), Wrong> {
        if count >= AT_A_TIME {
            let mut copies = Vec::new(self.alloc);
            for _ in 0..AT_A_TIME {
                copies.extend_from_slice(body)?;
            }
            for _ in 0..count / AT_A_TIME {
                out.extend_from_slice(copies.as_slice())?;
            }
        }
        for _ in 0..count % AT_A_TIME {
            out.extend_from_slice(body)?;
        }
        Ok(())
    }

    // The form that a text begins with.
    fn form<'a>(&self, text: &'a [u8], turns: Turns, out: &mut Vec<u8>) -> Result<Form<'a>, Wrong>
        ensures body { IfOk result (λ form. length form.body.now < length text.now) }
        ensures after { IfOk result (λ form. length form.after.now < length text.now) }
    {
        match text {
            [b'$', b'[', after @ ..] => self.repetition(after, turns),
            [b'$', b'(', after @ ..] => {
                let (sum, after) = split_at_byte(after, b')').ok_or(Wrong::Unclear)?;
                self.sum(sum, turns, out)?;
                Ok(Form::written(after))
            }
            [b'$', b'$' | b'.', after @ ..] => {
                out.extend_from_slice(&text[..2])?;
                Ok(Form::written(after))
            }
            [b'$', b'x', _, _, after @ ..] => {
                out.extend_from_slice(&text[..4])?;
                Ok(Form::written(after))
            }
            [b'$', after @ ..] => {
                let (name, after) = until_no_letter(after);
                self.value(name, turns, out)?;
                Ok(Form::written(after))
            }
            _ => Err(Wrong::Unclear),
        }
    }

    // A repetition, from behind its bracket on.
    fn repetition<'a>(&self, text: &'a [u8], turns: Turns) -> Result<Form<'a>, Wrong>
        ensures body { IfOk result (λ form. length form.body.now ≤ length text.now) }
        ensures after { IfOk result (λ form. length form.after.now ≤ length text.now) }
    {
        let (count, body) = split_at_byte(text, b':').ok_or(Wrong::Unclear)?;
        let (body, after) = split_at_end(body).ok_or(Wrong::Unclear)?;
        let count = match number_of(count) {
            Some(count) => count,
            None => {
                let mut digits = Vec::new(self.alloc);
                self.sum(count, turns, &mut digits)?;
                number_of(digits.as_slice()).ok_or(Wrong::Unclear)?
            }
        };
        Ok(Form { count, body, after })
    }

    // Adds the value of a variable, or a number from it and another number.
    fn sum(&self, text: &[u8], turns: Turns, out: &mut Vec<u8>) -> Result<(), Wrong> {
        let (name, rest) = until_no_letter(text);
        let [sign, number @ ..] = rest else {
            return self.value(name, turns, out);
        };
        let mut digits = Vec::new(self.alloc);
        self.value(name, turns, &mut digits)?;
        let left = number_of(digits.as_slice()).ok_or(Wrong::Unclear)?;
        let right = number_of(number).ok_or(Wrong::Unclear)?;
        let number = match sign {
            b'+' => left.checked_add(right),
            b'-' => left.checked_sub(right),
            b'*' => left.checked_mul(right),
            b'/' => left.checked_div(right),
            b'%' => left.checked_rem(right),
            _ => None,
        };
        push_number(self.alloc, out, number.ok_or(Wrong::Unclear)?)
    }

    // Adds the value of a name.
    fn value(&self, name: &[u8], turns: Turns, out: &mut Vec<u8>) -> Result<(), Wrong> {
        if let Some(turn) = turns.named(name) {
            return push_number(self.alloc, out, turn);
        }
        for variable in self.variables.iter().rev() {
            if variable.name.is(name) {
                out.extend_from_slice(variable.value.as_slice())?;
                return Ok(());
            }
        }
        Err(Wrong::Unclear)
    }
}

// The text before a form, and that from the form on.
fn until_form(text: &[u8]) -> Option<(&[u8], &[u8])>
    ensures { IfSome result (λ parts. length parts.1.now ≤ length text.now) }
{
    let place = text.iter().position(|byte| *byte == b'$')?;
    Some(text.split_at(place))
}

// The text before a byte, and that after it.
fn split_at_byte(text: &[u8], byte: u8) -> Option<(&[u8], &[u8])>
    ensures { IfSome result (λ parts. length parts.1.now ≤ length text.now) }
{
    let place = text.iter().position(|each| *each == byte)?;
    let (before, after) = text.split_at(place);
    let (_, after) = after.split_first()?;
    Some((before, after))
}

// The body of a repetition, and what comes after its end.
fn split_at_end(text: &[u8]) -> Option<(&[u8], &[u8])>
    ensures body { IfSome result (λ parts. length parts.0.now ≤ length text.now) }
    ensures after { IfSome result (λ parts. length parts.1.now ≤ length text.now) }
{
    let mut open = 0u64;
    let mut rest = text;
    loop {
        rest = match rest {
            [b']', b'$', after @ ..] if open == 0 => {
                let (body, _) = text.split_at_checked(text.len().saturating_sub(rest.len()))?;
                return Some((body, after));
            }
            [b']', b'$', after @ ..] => {
                open = open.saturating_sub(1);
                after
            }
            [b'$', b'[', after @ ..] => {
                open = open.saturating_add(1);
                after
            }
            [b'$', _, after @ ..] => after,
            [_, after @ ..] => after,
            [] => return None,
        };
    }
}
