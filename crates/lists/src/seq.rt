// A list of values over a `Vec`.
ghost use Rattle.std.specs.Prelude.{◌≡◌, ◌↔◌, IsTrue, ◌++◌, ◌∷◌, [], length, IfOk, OnErr, OnOk, slice_get, option_copied, take};

use crate::copies::Copies;
use crate::exact::Exact;
use std::alloc::{AllocError, AllocFailed, Global};
use std::marker::Model;

/// A list that contracts see as its members, in order.
#[derive(Drop)]
pub struct Seq<T> {
    members: Vec<T>,
}

impl<T> Model for Seq<T> {
    ghost use Rattle.std.specs.Prelude.{List};

    ghost Value = { List T };

    ghost view = { λ s. s.members.items };
}

impl<T> Seq<T> {
    /// The empty list. Takes no memory.
    pub fn new(alloc: Global) -> Seq<T>
        ensures { result ≡ [] }
    {
        Seq {
            members: Vec::new(alloc),
        }
    }

    /// The list of these members. Takes no memory.
    pub fn from_vec(members: Vec<T>) -> Seq<T>
        ensures { result ≡ members.items }
    {
        Seq { members }
    }

    /// The members. Takes no memory.
    pub fn into_vec(self) -> Vec<T>
        ensures { result.items ≡ self }
    {
        self.members
    }

    /// The members, lent. Takes no memory.
    pub fn as_slice(&self) -> &[T]
        ensures { result.now ≡ self.now }
    {
        self.members.as_slice()
    }

    /// How many members there are.
    pub fn len(&self) -> usize
        ensures { result ≡ length self.now }
    {
        self.members.len()
    }

    /// Whether there is no member.
    pub fn is_empty(&self) -> bool
        ensures { IsTrue result ↔ (length self.now ≡ 0) }
    {
        self.members.len() == 0
    }

    /// Appends a member; where memory is refused, the list stays and the member is handed back.
    pub fn push(&mut self, member: T) -> Result<(), AllocFailed<T>>
        ensures ok { OnOk result (self.new ≡ self.old ++ member ∷ []) }
        ensures err { OnErr result (self.new ≡ self.old) }
    {
        self.members.push(member)
    }

    /// Drops all members behind the first `count`.
    pub fn truncate(&mut self, count: usize)
    where
        T: Drop,
        ensures { self.new ≡ take count self.old }
    {
        self.members.truncate(count);
    }

    /// The member with this number, counted from 0.
    pub fn get(&self, number: usize) -> Option<&T>
        ensures { option_copied result ≡ slice_get self.now number }
    {
        self.members.get(number)
    }
}

impl<T: Exact> Exact for Seq<T> {
    fn same(&self, other: &Seq<T>) -> bool {
        same_members(self.as_slice(), other.as_slice())
    }
}

fn same_members<T: Exact>(left: &[T], right: &[T]) -> bool
    ensures { IsTrue result ↔ (left.now ≡ right.now) }
{
    let mut rest = left;
    let mut other = right;
    while let ([x, xs @ ..], [y, ys @ ..]) = (rest, other) {
        if !x.same(y) {
            return false;
        }
        rest = xs;
        other = ys;
    }
    rest.is_empty() && other.is_empty()
}

impl<T: Copies> Copies for Seq<T> {
    fn copy(&self, alloc: Global) -> Result<Seq<T>, AllocError> {
        Ok(Seq::from_vec(copy_members(alloc, self.as_slice())?))
    }
}

fn copy_members<T: Copies>(alloc: Global, members: &[T]) -> Result<Vec<T>, AllocError>
    ensures { IfOk result (λ copies. copies.items ≡ members.now) }
{
    let mut copies = Vec::with_capacity(alloc, members.len())?;
    for member in members {
        copies.push(member.copy(alloc)?)?;
    }
    Ok(copies)
}
