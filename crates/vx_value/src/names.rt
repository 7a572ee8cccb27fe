//! Names of fields, of variants and of extensions.

ghost use Rattle.std.specs.Prelude.{◌≡◌, ◌↔◌, IsTrue, IfOk, length, option_map, slice_get, string_bytes};
ghost use Rattle.std.specs.Str.{bytes_eq};
ghost use Rattle.std.specs.Cmp.{decided, partial_equiv_from_equiv};
ghost use Rattle.std.specs.Cmp.Lexicographic.{nat_list_eq_equiv, bytes_decides};
ghost use Rattle.std.specs.Hash as hash;
ghost use Rattle.std.specs.Hash.{same_Alike};
ghost use Rattle.vx_value.specs.Errors.{OnlyOutOfMemory};
ghost use Rattle.vx_value.specs.Names.{same_names, same_names_Decides, names_writes};

use crate::{FieldNames, Name, VortexResult};
use std::alloc::Global;
use std::hash::{Hash, Hasher};
use std::rc::Rc;

impl Name {
    /// Makes a name of `text`, which isn't copied. Fails only with `OutOfMemory`.
    pub fn new(alloc: Global, text: String) -> VortexResult<Name>
        ensures ok { IfOk result (λ name. name ≡ string_bytes text) }
        ensures err { OnlyOutOfMemory result }
    {
        Ok(Name {
            text: Rc::new(alloc, text)?,
        })
    }

    /// Returns the text.
    pub fn as_str(&self) -> &str
        ensures { result.now ≡ self.now }
    {
        self.text.as_str()
    }
}

/// Names are equal if they have the same text, shared or not.
impl PartialEq for Name {
    ghost eq = { bytes_eq };

    ghost laws = { partial_equiv_from_equiv nat_list_eq_equiv };

    #[tactic(auto, using(crate::proofs::BytesLemmas::bytes_eq_is))]
    fn eq(&self, other: &Name) -> bool
        ensures value { result ≡ bytes_eq self.now other.now }
        ensures equal { IsTrue result ↔ (self.now ≡ other.now) }
    {
        self.as_str() == other.as_str()
    }
}

impl Eq for Name {
    ghost laws = { nat_list_eq_equiv };
}

impl Hash for Name {
    ghost hash_input = { hash.str };

    ghost respects_eq = { (same_Alike hash.str bytes_decides).fed };

    fn hash<H: Hasher>(&self, state: &mut H) {
        self.as_str().hash(state);
    }
}

impl FieldNames {
    /// Makes shared names of `names`, which aren't copied. Fails only with `OutOfMemory`.
    pub fn new(alloc: Global, names: Vec<Name>) -> VortexResult<FieldNames>
        ensures ok { IfOk result (λ ns. ns ≡ names.items) }
        ensures err { OnlyOutOfMemory result }
    {
        Ok(FieldNames {
            names: Rc::new(alloc, names)?,
        })
    }

    /// Returns the names, in order.
    pub fn as_slice(&self) -> &[Name]
        ensures { result.now ≡ self.now }
    {
        self.names.as_slice()
    }

    /// Returns the number of names.
    pub fn len(&self) -> usize
        ensures { result ≡ length self.now }
    {
        self.names.len()
    }

    /// Returns the name at `index`, counted from 0, or `None` if there are fewer.
    pub fn get(&self, index: usize) -> Option<&str>
        ensures { option_map (λ s. s.now) result ≡ slice_get self.now index }
    {
        match self.names.get(index) {
            Some(name) => Some(name.as_str()),
            None => None,
        }
    }
}

/// Names are equal if they have the same texts in the same order.
impl PartialEq for FieldNames {
    ghost eq = { same_names };

    ghost laws = { partial_equiv_from_equiv (decided same_names same_names_Decides) };

    fn eq(&self, other: &FieldNames) -> bool {
        self.names.as_slice() == other.names.as_slice()
    }
}

impl Eq for FieldNames {
    ghost laws = { decided same_names same_names_Decides };
}

impl Hash for FieldNames {
    ghost hash_input = { names_writes };

    ghost respects_eq = { (same_Alike names_writes same_names_Decides).fed };

    fn hash<H: Hasher>(&self, state: &mut H) {
        self.names.as_slice().hash(state);
    }
}
