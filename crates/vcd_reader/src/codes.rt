//! The identifiers of variables, numbered by their first declaration.

ghost use Rattle.std.specs.Prelude.{◌≡◌, List, ℕ, [], ◌∷◌, ◌++◌, None, length, OnOk, IfOk};
ghost use Rattle.vcd_reader.specs.Codes.{find_code};

use indexmap::IndexMap;
use std::alloc::{AllocError, Global};
use std::marker::Model;

/// The identifiers with the sizes of their variables, in bits. The number of an identifier is its place.
#[derive(Drop)]
pub struct Codes {
    sizes: IndexMap<Vec<u8>, u32>,
}

impl Model for Codes {
    ghost use Rattle.std.specs.Prelude.{List, ℕ, map};
    ghost use Rattle.vcd_reader.specs.inner.CodesView.{codes_of};

    ghost Value = { List (List ℕ × ℕ) };

    ghost view = { λ codes. codes_of codes.sizes.entries };
}

impl Codes {
    pub fn new(alloc: Global) -> Codes
        ensures none { result ≡ [] }
    {
        Codes {
            sizes: IndexMap::new(alloc),
        }
    }

    /// The number of an identifier, and its size in bits.
    pub fn find(&self, id: &[u8]) -> Option<(usize, u32)>
        ensures found { result ≡ find_code self.now id.now }
    {
        match self.sizes.get_full(id) {
            None => None,
            Some((code, _, size)) => Some((code, *size)),
        }
    }

    /// Numbers an identifier that has no number yet.
    pub fn add(&mut self, alloc: Global, id: &[u8], size: u32) -> Result<usize, AllocError>
        requires { find_code self.old id.now ≡ None }
        ensures added { OnOk result (self.new ≡ self.old ++ (id.now, size) ∷ []) }
        ensures next { IfOk result (λ code. code ≡ length self.old) }
    {
        let key = Vec::from_slice(alloc, id)?;
        let code = self.sizes.len();
        self.sizes.insert(key, size)?;
        Ok(code)
    }
}
