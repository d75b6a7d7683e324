//! Indices of a pool, found by the texts, classes and constants that they lead to (JVMS 4.4).

ghost use Rattle.std.specs.Prelude.{◌≡◌, ◌<◌, ◌^◌, IfOk, length};
ghost use Rattle.dj_names.specs.Descriptors.{spell_descriptor, spell_type};
ghost use Rattle.dj_names.specs.Types.{view_descriptor, view_type};
ghost use Rattle.dj_pool.specs.PoolFormat.{class_at, text_at};
ghost use Rattle.dj_write.specs.Found.{IsLed, constant_at, key_at};
ghost use Rattle.dj_write.specs.Written.{LeadsIn};

use crate::constants::{ConstantKey, key_of};
use crate::descriptors::{spelled_descriptor, spelled_type, spelled_word};
use crate::led::indices;
use dj_class::Pool;
use dj_names::{ClassName, Constant, Descriptor, JType, Units};
use std::alloc::{AllocError, Global};
use std::collections::BTreeMap;
use std::marker::Model;

/// A pool, with an index for each text, each class and each constant in it.
#[derive(Drop)]
pub(crate) struct Index<'a> {
    pool: &'a Pool,
    texts: BTreeMap<Units, u16>,
    classes: BTreeMap<ClassName, u16>,
    constants: BTreeMap<ConstantKey, u16>,
}

impl<'a> Model for Index<'a> {
    ghost use Rattle.std.specs.Prelude.{List};
    ghost use Rattle.dj_pool.specs.declared.entry.Entry as spec;
    ghost use Rattle.dj_write.specs.Tables.{AreTables};

    ghost Value = { List spec.Entry };

    ghost view = { λ i. i.pool.now };

    ghost invariant = { λ i. AreTables i.pool.now i.texts i.classes i.constants };
}

impl<'a> Index<'a> {
    /// The indices of this pool.
    pub(crate) fn new(alloc: Global, pool: &'a Pool) -> Result<Index<'a>, AllocError>
        requires few { length pool.now < 2 ^ 16 }
        ensures pool { IfOk result (λ index. index ≡ pool.now) }
    {
        let texts = indices(alloc, pool)?;
        let classes = indices(alloc, pool)?;
        let constants = indices(alloc, pool)?;
        Ok(Index {
            pool,
            texts,
            classes,
            constants,
        })
    }

    /// An index of a text that is in the pool.
    pub(crate) fn text(&self, units: &Units) -> u16
        requires there { IsLed (text_at self.now) units.now }
        ensures leads { LeadsIn (text_at self.now) result units.now }
    {
        match self.texts.get(units) {
            Some(index) => *index,
            None => unreachable!(),
        }
    }

    /// An index of a class that is in the pool.
    pub(crate) fn class(&self, name: &ClassName) -> u16
        requires there { IsLed (class_at self.now) name.now }
        ensures leads { LeadsIn (class_at self.now) result name.now }
    {
        match self.classes.get(name) {
            Some(index) => *index,
            None => unreachable!(),
        }
    }

    /// An index of a constant that is in the pool.
    pub(crate) fn constant(&self, alloc: Global, constant: &Constant) -> Result<u16, AllocError>
        requires there { IsLed (constant_at self.now) constant.now }
        ensures leads { IfOk result (λ index. LeadsIn (constant_at self.now) index constant.now) }
    {
        let key = key_of(alloc, constant)?;
        Ok(self.by_key(&key))
    }

    /// An index of the constant that is found by a key.
    fn by_key(&self, key: &ConstantKey) -> u16
        requires there { IsLed (key_at self.now) key.now }
        ensures leads { LeadsIn (key_at self.now) result key.now }
    {
        match self.constants.get(key) {
            Some(index) => *index,
            None => unreachable!(),
        }
    }

    /// An index of a text of ASCII characters that is in the pool.
    pub(crate) fn word(&self, alloc: Global, word: &str) -> Result<u16, AllocError>
        requires there { IsLed (text_at self.now) word.now }
        ensures leads { IfOk result (λ index. LeadsIn (text_at self.now) index word.now) }
    {
        let units = spelled_word(alloc, word)?;
        Ok(self.text(&units))
    }

    /// An index of the text that spells the descriptor of a field of this type, which is in the pool.
    pub(crate) fn field_type(&self, alloc: Global, kind: &JType) -> Result<u16, AllocError>
        requires there { IsLed (text_at self.now) (spell_type (view_type kind.now)) }
        ensures leads { IfOk result (λ index. LeadsIn (text_at self.now) index (spell_type (view_type kind.now))) }
    {
        let units = spelled_type(alloc, kind)?;
        Ok(self.text(&units))
    }

    /// An index of the text that spells a descriptor, which is in the pool.
    pub(crate) fn descriptor(
        &self,
        alloc: Global,
        descriptor: &Descriptor,
    ) -> Result<u16, AllocError>
        requires there { IsLed (text_at self.now) (spell_descriptor (view_descriptor descriptor.now)) }
        ensures leads { IfOk result (λ index. LeadsIn (text_at self.now) index (spell_descriptor (view_descriptor descriptor.now))) }
    {
        let units = spelled_descriptor(alloc, descriptor)?;
        Ok(self.text(&units))
    }
}
