//! Numbers and constant expressions.

ghost use Rattle.std.specs.Prelude.{◌≡◌};
ghost use Rattle.std.specs.Str.Parse.{ParsesUnsigned};
ghost use Rattle.dds_idl.specs.Number.{base_of, digits_of};

use crate::IdlFault;
use crate::cursor::Cursor;
use crate::declarations::Meaning;
use crate::draft::Draft;
use crate::operator::{Infix, Prefix};
use crate::word::Kind;
use crate::words::Fault;
use std::alloc::{AllocError, Global};
use std::num::ParseIntError;

/// Returns the base of a number, and its digits.
fn spelled(word: &str) -> (u32, &str)
    ensures base { result.0 ≡ base_of word.now }
    ensures digits { result.1.now ≡ digits_of word.now }
{
    let octets = word.as_bytes();
    if octets.len() < 2 || octets[0] != b'0' {
        return (10, word);
    }
    if octets[1] == b'x' || octets[1] == b'X' {
        let (_, digits) = word.split_at(2);
        return (16, digits);
    }
    let (_, digits) = word.split_at(1);
    (8, digits)
}

/// Returns the number that a word writes: in base 16 after `0x`, in base 8 after `0`, else in
/// base 10 (IDL 4.2, 7.2.6.1).
fn number_of(word: &str) -> Result<u64, ParseIntError>
    ensures { ParsesUnsigned 64 (base_of word.now) (digits_of word.now) result }
{
    let (base, digits) = spelled(word);
    u64::from_str_radix(digits, base)
}

/// What waits for a number after it.
#[derive(Clone, Copy, Debug, PartialEq, Eq)]
enum Waiting {
    Parenthesis,
    Prefix(Prefix),
    Infix(Infix),
}

impl Waiting {
    /// Returns how tightly it binds.
    fn rank(self) -> u8 {
        match self {
            Waiting::Parenthesis => 0,
            Waiting::Infix(infix) => infix.rank(),
            Waiting::Prefix(_) => 7,
        }
    }
}

/// An expression, as far as it was taken.
#[derive(Drop)]
struct Expression {
    numbers: Vec<i64>,
    /// What waits for a number, with its place.
    waiting: Vec<(Waiting, usize)>,
    /// How many parentheses are open.
    open: usize,
}

/// Where an expression is.
#[derive(Clone, Copy, Debug, PartialEq, Eq)]
pub(crate) enum Ends {
    /// Before a `>`, so `>>` is no shift unless it is in parentheses.
    Angle,
    /// Before another word.
    Other,
}

impl Expression {
    fn new(alloc: Global) -> Expression {
        Expression {
            numbers: Vec::new(alloc),
            waiting: Vec::new(alloc),
            open: 0,
        }
    }

    /// Computes what waits last.
    fn reduce_one(&mut self, waiting: Waiting, at: usize) -> Result<(), Fault> {
        let right = self.numbers.pop();
        let number = match (waiting, right) {
            (Waiting::Prefix(prefix), Some(right)) => prefix.changed(right),
            (Waiting::Infix(infix), Some(right)) => match self.numbers.pop() {
                Some(left) => infix.combined(left, right),
                None => None,
            },
            _ => None,
        };
        match number {
            Some(number) => {
                self.numbers.push(number)?;
                Ok(())
            }
            None => Err(Fault {
                at,
                what: IdlFault::Arithmetic,
            }),
        }
    }

    /// Computes what waits and binds at least so tightly, which is no parenthesis.
    fn reduce(&mut self, rank: u8) -> Result<(), Fault> {
        for _ in 0..self.waiting.len() {
            match self.waiting.last() {
                Some((waiting, at)) if waiting.rank() >= rank => {
                    let (waiting, at) = (*waiting, *at);
                    self.waiting.pop();
                    self.reduce_one(waiting, at)?;
                }
                _ => break,
            }
        }
        Ok(())
    }

    /// Adds what waits for a number.
    fn wait(&mut self, waiting: Waiting, at: usize) -> Result<(), AllocError> {
        self.waiting.push((waiting, at))?;
        Ok(())
    }

    /// Takes what comes before a number.
    fn prefixes(&mut self, cursor: &mut Cursor<'_>) -> Result<(), Fault> {
        for _ in 0..cursor.len() {
            let word = cursor.word();
            let waiting = match word.text {
                "(" => Waiting::Parenthesis,
                "+" => Waiting::Prefix(Prefix::Plus),
                "-" => Waiting::Prefix(Prefix::Minus),
                "~" => Waiting::Prefix(Prefix::Complement),
                _ => break,
            };
            cursor.advance();
            self.wait(waiting, word.at)?;
            if waiting == Waiting::Parenthesis {
                self.open = self.open.saturating_add(1);
            }
        }
        Ok(())
    }

    /// Takes the parentheses that end after a number.
    fn parentheses(&mut self, cursor: &mut Cursor<'_>) -> Result<(), Fault> {
        for _ in 0..cursor.len() {
            if !cursor.is(")") || self.open == 0 {
                break;
            }
            cursor.advance();
            self.reduce(1)?;
            self.waiting.pop();
            self.open = self.open.saturating_sub(1);
        }
        Ok(())
    }

    /// Takes an operator after a number, if one is next, and returns it.
    fn infix(&self, cursor: &mut Cursor<'_>, ends: Ends) -> Option<Infix> {
        let infix = match cursor.word().text {
            "|" => Infix::Or,
            "^" => Infix::Xor,
            "&" => Infix::And,
            "<" => Infix::Left,
            ">" => Infix::Right,
            "+" => Infix::Add,
            "-" => Infix::Subtract,
            "*" => Infix::Multiply,
            "/" => Infix::Divide,
            "%" => Infix::Remainder,
            _ => return None,
        };
        match infix {
            Infix::Left | Infix::Right => {
                let is_end = infix == Infix::Right && ends == Ends::Angle && self.open == 0;
                if is_end || !cursor.is_doubled() {
                    return None;
                }
                cursor.advance();
                cursor.advance();
            }
            _ => cursor.advance(),
        }
        Some(infix)
    }
}

impl Draft {
    /// Takes a number or the name of one, and returns it.
    fn operand(&self, cursor: &mut Cursor<'_>) -> Result<i64, Fault> {
        let word = cursor.word();
        let number = if word.kind == Kind::Number {
            cursor.advance();
            match number_of(word.text) {
                Ok(number) => i64::try_from(number).ok(),
                Err(_) => None,
            }
        } else {
            match self.resolve(cursor) {
                Ok(Meaning::Number(number)) => Some(number),
                Ok(_) => None,
                Err(
                    Fault {
                        at,
                        what: IdlFault::NotDeclared,
                    },
                ) => {
                    return Err(Fault {
                        at,
                        what: IdlFault::NoConstant,
                    });
                }
                Err(fault) => return Err(fault),
            }
        };
        match number {
            Some(number) => Ok(number),
            None => Err(Fault {
                at: word.at,
                what: IdlFault::BadNumber,
            }),
        }
    }

    /// Takes a constant expression, and returns its value. `BadNumber` if an operand is no number
    /// of 63 bits, `Arithmetic` if an operator gives none of 64 bits.
    pub(crate) fn number(&self, cursor: &mut Cursor<'_>, ends: Ends) -> Result<i64, Fault> {
        let mut taken = Expression::new(self.alloc);
        for _ in 0..cursor.len() {
            taken.prefixes(cursor)?;
            let number = self.operand(cursor)?;
            taken.numbers.push(number)?;
            taken.parentheses(cursor)?;
            let at = cursor.word().at;
            match taken.infix(cursor, ends) {
                Some(infix) => {
                    taken.reduce(infix.rank())?;
                    taken.wait(Waiting::Infix(infix), at)?;
                }
                None => break,
            }
        }
        taken.reduce(1)?;
        match taken.numbers.pop() {
            Some(number) if taken.waiting.is_empty() => Ok(number),
            _ => Err(cursor.fault(IdlFault::Unexpected)),
        }
    }

    /// Takes a bound or a size, and returns it. `BadBound` if it isn't from 1 to 2^32 - 1.
    pub(crate) fn bound(&self, cursor: &mut Cursor<'_>, ends: Ends) -> Result<u32, Fault> {
        let word = cursor.word();
        let number = self.number(cursor, ends)?;
        match u32::try_from(number) {
            Ok(bound) if bound > 0 => Ok(bound),
            _ => Err(Fault {
                at: word.at,
                what: IdlFault::BadBound,
            }),
        }
    }
}
