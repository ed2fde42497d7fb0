//! The halves of the server and of the roles.
ghost use Rattle.std.specs.Prelude.{◌≡◌, ◌<◌, ◌≤◌, length, [], Some, true, false, slice_get, slice_set};
ghost use Rattle.ep_table.specs.declared.limits.TheConstants.{SLOTS};
ghost use Rattle.ep_registry.specs.declared.server.Mark.TheVariants as mark;
ghost use Rattle.ep_registry.specs.Registered.{mark_of, mark_of_role};

use crate::ends::Ends;
use ep_journal::{Decision, Log};
use ep_table::limits::SLOTS;
use ep_tie::{Named, Right};
use std::marker::Model;

/// What the server or a role has in common with the registry.
#[derive(Clone, Copy, Debug, PartialEq, Eq)]
pub enum Mark {
    /// How many sessions were opened on all rows, before any write and later, and whether the server has ended.
    Server { early: u32, late: u32, left: bool },
    /// How many roles there are, and whether this one has ended.
    Role { roles: u32, left: bool },
}

/// The server's halves. Contracts see the decisions by connection, how many sessions were opened before any write and how
/// many later, and whether the server has ended.
#[derive(Drop)]
pub struct Server<B: Named, R: Named> {
    book: Right<B, Log<Decision>>,
    early: u32,
    late: u32,
    left: bool,
    half: Right<R, Mark>,
}

impl<B: Named, R: Named> Model for Server<B, R> {
    ghost use Rattle.ep_registry.specs.Registered.{ServerHalf, IsServer, list_in};

    ghost Value = { ServerHalf };

    ghost view = { λ s. record { decisions = list_in s.book.value; early = s.early; late = s.late; left = s.left } };

    ghost invariant = { λ s. IsServer s.book (record { decisions = list_in s.book.value; early = s.early; late = s.late; left = s.left }) s.half };
}

impl<B: Named, R: Named> Server<B, R> {
    pub(crate) fn new(
        book: Right<B, Log<Decision>>,
        marks: &mut Ends<R, Mark>,
        half: Right<R, Mark>,
    ) -> Server<B, R>
        requires book { (book.place ≡ 0) × (book.value ≡ Some []) }
        requires place { (half.place ≡ SLOTS) × (SLOTS < length marks.old) }
        ensures marks { marks.new ≡ slice_set marks.old SLOTS (Some (mark.Server 0 0 false)) }
        ensures value { result ≡ record { decisions = []; early = 0; late = 0; left = false } }
    {
        let mark = Mark::Server {
            early: 0,
            late: 0,
            left: false,
        };
        let mut half = half;
        marks.set(SLOTS, &mut half, &mark);
        Server {
            book,
            early: 0,
            late: 0,
            left: false,
            half,
        }
    }

    /// How many sessions were opened on all rows before any write.
    pub fn early(&self) -> u32
        ensures { result ≡ self.now.early }
    {
        self.early
    }

    /// How many sessions were opened on all rows later.
    pub fn late(&self) -> u32
        ensures { result ≡ self.now.late }
    {
        self.late
    }

    pub(crate) fn meet(&mut self, book: &mut Ends<B, Log<Decision>>)
        requires one { 0 < length book.old }
        ensures equal { slice_get book.old 0 ≡ Some (Some self.old.decisions) }
        ensures same { (self.new ≡ self.old) × (book.new ≡ book.old) }
    {
        book.meet(0, &mut self.book);
    }

    pub(crate) fn tell(&mut self, book: &mut Ends<B, Log<Decision>>, decisions: &Log<Decision>)
        requires one { 0 < length book.old }
        ensures book { book.new ≡ slice_set book.old 0 (Some decisions.now) }
        ensures value { self.new ≡ record self.old { decisions = decisions.now } }
    {
        book.set(0, &mut self.book, decisions);
    }

    pub(crate) fn meet_mark(&mut self, marks: &mut Ends<R, Mark>)
        requires all { SLOTS < length marks.old }
        ensures equal { slice_get marks.old SLOTS ≡ Some (Some (mark_of self.old)) }
        ensures same { (self.new ≡ self.old) × (marks.new ≡ marks.old) }
    {
        marks.meet(SLOTS, &mut self.half);
    }

    pub(crate) fn put_mark(&mut self, marks: &mut Ends<R, Mark>, early: u32, late: u32, left: bool)
        requires all { SLOTS < length marks.old }
        ensures marks { marks.new ≡ slice_set marks.old SLOTS (Some (mark.Server early late left)) }
        ensures value { self.new ≡ record self.old { early = early; late = late; left = left } }
    {
        let mark = Mark::Server { early, late, left };
        marks.set(SLOTS, &mut self.half, &mark);
        self.early = early;
        self.late = late;
        self.left = left;
    }
}

/// A streaming role's half. Contracts see its number from 0, how many roles there are, and whether it has ended.
#[derive(Drop)]
pub struct Role<R: Named> {
    number: u32,
    roles: u32,
    left: bool,
    half: Right<R, Mark>,
}

impl<R: Named> Model for Role<R> {
    ghost use Rattle.ep_registry.specs.Registered.{RoleHalf, IsRole};

    ghost Value = { RoleHalf };

    ghost view = { λ r. record { number = r.number; roles = r.roles; left = r.left } };

    ghost invariant = { λ r. IsRole (record { number = r.number; roles = r.roles; left = r.left }) r.half };
}

impl<R: Named> Role<R> {
    /// The role of this number, with its half.
    pub fn new(number: u32, roles: u32, half: Right<R, Mark>) -> Role<R>
        requires some { (number < roles) × (roles ≤ SLOTS) }
        requires half { (half.place ≡ number) × (half.value ≡ Some (mark.Role roles false)) }
        ensures { result ≡ record { number = number; roles = roles; left = false } }
    {
        Role {
            number,
            roles,
            left: false,
            half,
        }
    }

    /// Its number, from 0.
    pub fn number(&self) -> u32
        ensures value { result ≡ self.now.number }
        ensures known { (result < self.now.roles) × (self.now.roles ≤ SLOTS) }
    {
        self.number
    }

    /// How many roles there are.
    pub fn roles(&self) -> u32
        ensures { result ≡ self.now.roles }
    {
        self.roles
    }

    pub(crate) fn meet(&mut self, marks: &mut Ends<R, Mark>)
        requires all { SLOTS < length marks.old }
        ensures equal { slice_get marks.old self.old.number ≡ Some (Some (mark_of_role self.old)) }
        ensures same { (self.new ≡ self.old) × (marks.new ≡ marks.old) }
    {
        let place = self.number as usize;
        marks.meet(place, &mut self.half);
    }

    pub(crate) fn leave(&mut self, marks: &mut Ends<R, Mark>)
        requires all { SLOTS < length marks.old }
        ensures marks { marks.new ≡ slice_set marks.old self.old.number (Some (mark.Role self.old.roles true)) }
        ensures value { self.new ≡ record self.old { left = true } }
    {
        let roles = self.roles;
        let place = self.number as usize;
        marks.set(place, &mut self.half, &Mark::Role { roles, left: true });
        self.left = true;
    }
}
