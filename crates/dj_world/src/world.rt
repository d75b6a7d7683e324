//! Classes in the order in which they were added (JVMS 5.3.5).

ghost use Rattle.std.specs.Prelude.{◌≡◌, ◌↔◌, ◌+◌, ◌<◌, ◌^◌, ℕ, [], OnOk, OnErr, IfOk, IfErr, IsTrue, MatchOption, IsSomeAnd, length, slice_get, take};
ghost use Rattle.std.specs.Option.{option_copied, option_map};
ghost use Rattle.dj_names.specs.Types.{view_type, view_descriptor};
ghost use Rattle.dj_kinds.specs.Search.{FindsOne};
ghost use Rattle.dj_kinds.specs.Found.{IsFoundMethod, IsFoundField};
ghost use Rattle.dj_kinds.specs.Access.{IsAccessible};
ghost use Rattle.dj_core.specs.CoreTable.{core_classes};
ghost use Rattle.dj_world.specs.Filling.{Takes, Fills};
ghost use Rattle.dj_world.specs.Clashes.{IsLawful, IsLeastClash, MayBeAdded};
ghost use Rattle.dj_world.specs.Worlds.{IsAdded, IsFileAdded, IsAddFault, header_of};

use crate::clash::clash_of;
use crate::fault::{AddFault, ClashKind};
use crate::members::{header_of, members_of};
use crate::wanted::Wanted;
use dj_class::ClassFile;
use dj_core::{CORE_CLASSES, CoreClass, core_class};
use dj_headers::Headers;
use dj_kinds::{MemberTable, find_field, find_method, is_accessible};
use dj_names::{ClassMembers, ClassName, Descriptor, Header, JType, Member, Members, Units};
use std::alloc::{AllocError, Global};
use std::marker::Model;

/// Classes, no two of which clash, each with its header and its members.
#[derive(Drop)]
pub struct World {
    headers: Headers,
    members: MemberTable,
    wanted: Wanted,
    alloc: Global,
}

impl Model for World {
    ghost use Rattle.std.specs.Coded.{codes};
    ghost use Rattle.dj_names.specs.contracts.types.JType as types;
    ghost use Rattle.dj_world.specs.Worlds.{WorldOf};
    ghost use Rattle.dj_world.specs.Wanting.{KeepsWorld};

    ghost Value = { WorldOf };

    ghost coded = { Prim.hlevel (codes, types.the_row.coded) };

    ghost view = { λ w. record { headers = w.headers; members = w.members } };

    ghost invariant = { λ w. KeepsWorld (record { headers = w.headers; members = w.members }) w.wanted };
}

impl World {
    /// No classes.
    pub fn new(alloc: Global) -> World
        ensures empty { result ≡ record { headers = []; members = [] } }
    {
        World {
            headers: Headers::new(alloc),
            members: MemberTable::new(alloc),
            wanted: Wanted::new(alloc),
            alloc,
        }
    }

    /// The headers, none of which clashes with another.
    pub fn headers(&self) -> &Headers
        ensures headers { result.now ≡ self.now.headers }
        ensures lawful { IsLawful self.now.headers }
    {
        &self.headers
    }

    /// The members of each class, in the order of the headers.
    pub fn members(&self) -> &Members
        ensures members { result.now.classes ≡ self.now.members }
        ensures paired { length self.now.members ≡ length self.now.headers }
    {
        self.members.members()
    }

    /// The members of each class, in the order of the headers, as calls and names are looked up in them.
    pub fn member_table(&self) -> &MemberTable
        ensures members { result.now ≡ self.now.members }
        ensures paired { length self.now.members ≡ length self.now.headers }
    {
        &self.members
    }

    /// The method that is found from a class, if any is.
    pub fn find_method(
        &self,
        class: &ClassName,
        name: &Units,
        descriptor: &Descriptor,
    ) -> Option<Member>
        ensures found { FindsOne (IsFoundMethod self.now.headers self.now.members class.now name.now (view_descriptor descriptor.now)) result }
    {
        find_method(&self.headers, &self.members, class, name, descriptor)
    }

    /// The field that is found from a class, if any is.
    pub fn find_field(&self, class: &ClassName, name: &Units, kind: &JType) -> Option<Member>
        ensures found { FindsOne (IsFoundField self.now.headers self.now.members class.now name.now (view_type kind.now)) result }
    {
        find_field(&self.headers, &self.members, class, name, kind)
    }

    /// Whether a member may be used in a class, through an expression of a type where there is one.
    pub fn accessible(&self, from: &ClassName, member: Member, through: Option<&JType>) -> bool
        ensures accessible { IsTrue result ↔ IsAccessible self.now.headers self.now.members from.now member (option_map view_type (option_copied through.entry)) }
    {
        is_accessible(&self.headers, &self.members, from, member, through)
    }

    fn allocator(&self) -> Global {
        self.alloc
    }

    /// The clash of the least number that a class of this header would give.
    fn clash(&mut self, header: &Header) -> Result<Option<ClashKind>, AllocError>
        ensures clash { IfOk result (λ found. MatchOption found (MayBeAdded self.old.headers header.now) (IsLeastClash self.old.headers header.now)) }
        ensures kept { self.new ≡ self.old }
    {
        self.wanted.read_on(self.alloc, self.headers.as_slice())?;
        Ok(clash_of(&self.headers, &self.wanted, header))
    }

    /// Adds a class that clashes with none.
    fn push(&mut self, header: Header, members: ClassMembers) -> Result<(), AllocError>
        requires may_be_added { MayBeAdded self.old.headers header }
        requires room { length self.old.members + 1 < 2 ^ 32 }
        requires fields { length members.fields < 2 ^ 32 }
        requires methods { length members.methods < 2 ^ 32 }
        ensures added { OnOk result (IsAdded self.old header members self.new) }
        ensures kept { OnErr result (self.new ≡ self.old) }
    {
        self.members.push(members)?;
        match self.headers.push(header) {
            Ok(()) => Ok(()),
            Err(error) => {
                self.members.pop();
                Err(error)
            }
        }
    }

    /// Adds the class of a class file, unless it clashes with one that is there.
    pub fn add(&mut self, class: &ClassFile) -> Result<(), AddFault>
        // A u32 tells the place of a class, the new one included.
        requires room { length self.old.members + 1 < 2 ^ 32 }
        // A class file has at most 65,535 fields (JVMS 4.1).
        requires fields { length class.now.fields < 2 ^ 32 }
        // It has at most as many methods (JVMS 4.1).
        requires methods { length class.now.methods < 2 ^ 32 }
        // The class stands behind the others, with its header and its members; it clashes with none.
        ensures added { OnOk result (IsFileAdded self.old class.now self.new) }
        // A clash is the one of the least number that applies.
        ensures clash { IfErr result (IsAddFault self.old.headers (header_of class.now)) }
        // After a refusal the world is as before.
        ensures kept { OnErr result (self.new ≡ self.old) }
    {
        let header = header_of(self.allocator(), class)?;
        match self.clash(&header)? {
            Some(kind) => Err(AddFault::Clash(kind)),
            None => {
                let members = members_of(self.allocator(), class)?;
                self.push(header, members)?;
                Ok(())
            }
        }
    }

    /// Adds a class with these members, unless it clashes with one that is there.
    fn try_push(&mut self, header: Header, members: ClassMembers) -> Result<(), AddFault>
        requires room { length self.old.members + 1 < 2 ^ 32 }
        requires fields { length members.fields < 2 ^ 32 }
        requires methods { length members.methods < 2 ^ 32 }
        ensures added { OnOk result (IsAdded self.old header members self.new) }
        ensures clash { IfErr result (IsAddFault self.old.headers header) }
        ensures kept { OnErr result (self.new ≡ self.old) }
    {
        match self.clash(&header)? {
            Some(kind) => Err(AddFault::Clash(kind)),
            None => {
                self.push(header, members)?;
                Ok(())
            }
        }
    }

    /// Adds the class at a place of the table of core classes, unless it clashes.
    fn fill_one(&mut self, at: usize) -> Result<(), AllocError>
        requires within { at < CORE_CLASSES }
        requires room { length self.old.members + 1 < 2 ^ 32 }
        ensures taken { OnOk result (IsSomeAnd (slice_get core_classes at) (λ core. Takes self.old core self.new)) }
        ensures kept { OnErr result (self.new ≡ self.old) }
    {
        let CoreClass { header, members } = core_class(self.allocator(), at)?;
        match self.try_push(header, members) {
            Ok(()) => Ok(()),
            Err(AddFault::Clash(_)) => Ok(()),
            Err(AddFault::Memory(error)) => Err(error),
        }
    }

    /// Adds those of the core classes that clash with none, in their order. After want of memory
    /// the first of them may be there, and no other.
    pub fn fill(&mut self) -> Result<(), AllocError>
        // A u32 tells the place of a class, of each core class too.
        requires room { length self.old.members + 24 < 2 ^ 32 }
        ensures filled { OnOk result (Fills self.old core_classes self.new) }
        ensures begun { OnErr result ((n : ℕ) × Fills self.old (take n core_classes) self.new) }
    {
        for at in 0..CORE_CLASSES {
            self.fill_one(at)?;
        }
        Ok(())
    }
}
