//! What tells the attributes of an element apart.
ghost use Rattle.std.specs.Prelude.{◌≡◌, ◌++◌, IfOk};
ghost use Rattle.std.specs.Cmp.Rules.{comparing, hashing};
ghost use Rattle.std.specs.Hash as fed;
ghost use Rattle.std.proofs.Common.{rules};
ghost use Rattle.tree_lines.specs.Keys.{key, key_of, is_same_key};

use crate::tags::{declared_prefix, is_declaration};
use serna_kinds::{NoMemory, Spaces, WrittenName};
use std::alloc::Global;
use std::hash::{Hash, Hasher};
use std::marker::Model;

// Of an attribute that declares a namespace the prefix that it declares, of any other its URI and local name, and of one whose
// prefix is not bound its name as it is written.
#[derive(Drop)]
pub(crate) struct AttributeKey {
    declares: bool,
    is_bound: bool,
    uri: String,
    name: String,
}

impl Model for AttributeKey {
    ghost use Rattle.std.specs.String.{string_bytes};
    ghost use Rattle.tree_lines.specs.Keys.{Key};

    ghost Value = { Key };

    ghost view = { λ k. record { declares = k.declares; is_bound = k.is_bound; uri = string_bytes k.uri; name = string_bytes k.name } };
}

impl AttributeKey {
    fn from_parts(
        alloc: Global,
        declares: bool,
        is_bound: bool,
        uri: &str,
        name: &str,
    ) -> Result<AttributeKey, NoMemory>
        ensures { IfOk result (λ k. k ≡ key declares is_bound uri.now name.now) }
    {
        Ok(AttributeKey {
            declares,
            is_bound,
            uri: String::from_str(alloc, uri)?,
            name: String::from_str(alloc, name)?,
        })
    }

    // The key of an attribute by its name as it is written.
    pub(crate) fn from_name(
        alloc: Global,
        name: &str,
        spaces: &Spaces,
    ) -> Result<AttributeKey, NoMemory>
        ensures { IfOk result (λ k. k ≡ key_of spaces.now name.now) }
    {
        if is_declaration(name) {
            return AttributeKey::from_parts(alloc, true, false, "", declared_prefix(name));
        }
        let WrittenName { prefix, local } = WrittenName::parts(name);
        match spaces.attribute_uri(prefix) {
            Some(uri) => AttributeKey::from_parts(alloc, false, true, uri, local),
            None => AttributeKey::from_parts(alloc, false, false, "", name),
        }
    }
}

impl PartialEq for AttributeKey {
    ghost eq = { is_same_key };

    ghost laws = { Prim.search (comparing, rules) };

    fn eq(&self, other: &AttributeKey) -> bool {
        self.declares == other.declares
            && self.is_bound == other.is_bound
            && self.uri == other.uri
            && self.name == other.name
    }
}

impl Eq for AttributeKey {
    ghost laws = { Prim.search (comparing, rules) };
}

impl Hash for AttributeKey {
    ghost hash_input = { λ k. fed.bool k.declares ++ fed.bool k.is_bound ++ fed.str k.uri ++ fed.str k.name };

    ghost respects_eq = { Prim.search (hashing, rules) };

    fn hash<H: Hasher>(&self, state: &mut H) {
        self.declares.hash(state);
        self.is_bound.hash(state);
        self.uri.hash(state);
        self.name.hash(state);
    }
}
