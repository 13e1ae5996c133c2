ghost use Rattle.std.specs.Prelude.{◌≡◌, ℕ, ◌++◌, ◌↔◌, [], ◌∷◌, Some, None, List, length, slice_get, bytes_eq, IsTrue, IfOk, OnOk, OnErr, if◌then◌else◌};
ghost use Rattle.std.specs.Option.{option_map};
ghost use Rattle.std.specs.Cmp.Rules.{comparing, hashing};
ghost use Rattle.std.specs.Hash as fed;
ghost use Rattle.std.proofs.Common.{rules};
ghost use Rattle.serna_kinds.specs.Names.{NameParts, Grows, AreDistinct, name_parts, space, parts_of, is_same_name, id_of, with_name, are_same, uri_of};
ghost use Rattle.std.specs.Arc.{arc_str_bytes};
ghost use Rattle.serna_kinds.specs.Lookups.{or_else, uri_in, AreTexts};
ghost use Rattle.serna_kinds.specs.Qualified.{uri_for, element_uri, attribute_uri};

use crate::{NameId, NoMemory};
use indexmap::IndexSet;
use std::alloc::{AllocError, Global};
use std::collections::HashMap;
use std::hash::{Hash, Hasher};
use std::marker::Model;
use std::sync::ArcStr;

/// A name as it is written: the URI of its namespace (empty: none), its local name and its prefix (empty: none).
#[derive(Clone, Copy, Debug)]
pub struct Name<'a> {
    pub uri: &'a str,
    pub local: &'a str,
    pub prefix: &'a str,
}

// A name that a table keeps. Contracts see its parts.
#[derive(Debug, Drop)]
struct StoredName {
    uri: String,
    local: String,
    prefix: String,
}

impl Model for StoredName {
    ghost use Rattle.std.specs.String.{string_bytes};
    ghost use Rattle.serna_kinds.specs.Names.{NameParts};

    ghost Value = { NameParts };

    ghost view = { λ n. record { uri = string_bytes n.uri; local = string_bytes n.local; prefix = string_bytes n.prefix } };
}

impl StoredName {
    fn from_parts(
        alloc: Global,
        uri: &str,
        local: &str,
        prefix: &str,
    ) -> Result<StoredName, AllocError>
        ensures { IfOk result (λ n. n ≡ name_parts uri.now local.now prefix.now) }
    {
        Ok(StoredName {
            uri: String::from_str(alloc, uri)?,
            local: String::from_str(alloc, local)?,
            prefix: String::from_str(alloc, prefix)?,
        })
    }

    fn as_name(&self) -> Name<'_>
        ensures { parts_of result ≡ self.now }
    {
        Name {
            uri: self.uri.as_str(),
            local: self.local.as_str(),
            prefix: self.prefix.as_str(),
        }
    }
}

impl Clone for StoredName {
    ghost is_clone = { λ a b. b ≡ a };

    fn clone(&self) -> Result<StoredName, AllocError> {
        Ok(StoredName {
            uri: self.uri.clone()?,
            local: self.local.clone()?,
            prefix: self.prefix.clone()?,
        })
    }
}

impl PartialEq for StoredName {
    ghost eq = { is_same_name };

    ghost laws = { Prim.search (comparing, rules) };

    fn eq(&self, other: &StoredName) -> bool {
        self.uri == other.uri && self.local == other.local && self.prefix == other.prefix
    }
}

impl Eq for StoredName {
    ghost laws = { Prim.search (comparing, rules) };
}

impl Hash for StoredName {
    ghost hash_input = { λ n. fed.str n.uri ++ fed.str n.local ++ fed.str n.prefix };

    ghost respects_eq = { Prim.search (hashing, rules) };

    fn hash<H: Hasher>(&self, state: &mut H) {
        self.uri.hash(state);
        self.local.hash(state);
        self.prefix.hash(state);
    }
}

/// The names that were met, each under one number for good. The table only grows.
///
/// Contracts see the list of the names' parts, and a name's number is its place there.
#[derive(Debug, Drop)]
pub struct NameTable {
    names: IndexSet<StoredName>,
}

impl Model for NameTable {
    ghost use Rattle.std.specs.Prelude.{List};
    ghost use Rattle.serna_kinds.specs.Names.{NameParts};

    ghost Value = { List NameParts };

    ghost view = { λ t. t.names.keys };
}

impl NameTable {
    /// The table without names. Takes no memory.
    pub fn new(alloc: Global) -> NameTable
        ensures { result ≡ [] }
    {
        NameTable {
            names: IndexSet::new(alloc),
        }
    }

    /// The number of a name: equal triples have one number, for good, and different triples different ones.
    pub fn intern(
        &mut self,
        alloc: Global,
        uri: &str,
        local: &str,
        prefix: &str,
    ) -> Result<NameId, NoMemory>
        // The table grows at most, also where memory runs out.
        ensures grows { Grows self.old self.new }
        ensures stored { IfOk result (λ id. slice_get self.new id.0 ≡ Some (name_parts uri.now local.now prefix.now)) }

        // The number is the name's place in this table, and in every one that grows from it.
        ensures number { IfOk result (λ id. (table : List NameParts) → Grows self.new table → id ≡ id_of table (name_parts uri.now local.now prefix.now)) }

        // A name that was there adds nothing, another goes last.
        ensures names { OnOk result (self.new ≡ with_name self.old (name_parts uri.now local.now prefix.now)) }
        ensures err { OnErr result (self.new ≡ self.old) }
    {
        let name = StoredName::from_parts(alloc, uri, local, prefix)?;
        let (index, _) = self.names.insert_full(name)?;
        Ok(NameId(index as u64))
    }

    /// The name under a number, None exactly for a number that was not given.
    pub fn name(&self, id: NameId) -> Option<Name<'_>>
        ensures { option_map parts_of result ≡ slice_get self.now id.0 }
    {
        let stored = self.names.get_index(id.0 as usize)?;
        Some(stored.as_name())
    }

    /// Whether two numbers stand for one expanded name: equal URIs and equal local names.
    /// False for a number that was not given.
    pub fn same(&self, a: NameId, b: NameId) -> bool
        ensures { result ≡ are_same self.now a b }
    {
        match (self.name(a), self.name(b)) {
            (Some(x), Some(y)) => x.uri == y.uri && x.local == y.local,
            _ => false,
        }
    }

    /// The number of names. Any call for it tells that no name stands at two places.
    pub fn len(&self) -> usize
        ensures len { result ≡ length self.now }
        ensures distinct { AreDistinct self.now }
    {
        self.names.len()
    }

    /// Whether there are no names.
    pub fn is_empty(&self) -> bool
        ensures { IsTrue result ↔ (length self.now ≡ 0) }
    {
        self.len() == 0
    }

    /// The same table, in memory of its own.
    pub fn copy(&self) -> Result<NameTable, NoMemory>
        ensures { IfOk result (λ table. table ≡ self.now) }
    {
        let names = self.names.clone()?;
        Ok(NameTable { names })
    }
}

// A declared prefix with its URI, as `Spaces` keeps it.
#[derive(Debug, Drop)]
struct Declaration {
    prefix: String,
    uri: ArcStr,
}

impl Model for Declaration {
    ghost use Rattle.std.specs.String.{string_bytes};
    ghost use Rattle.std.specs.Arc.{arc_str_bytes};
    ghost use Rattle.serna_kinds.specs.Names.{Space};

    ghost Value = { Space };

    ghost view = { λ d. record { prefix = string_bytes d.prefix; uri = arc_str_bytes d.uri } };
}

impl Declaration {
    fn from_parts(alloc: Global, prefix: &str, uri: &str) -> Result<Declaration, AllocError>
        ensures { IfOk result (λ d. d ≡ space prefix.now uri.now) }
    {
        Ok(Declaration {
            prefix: String::from_str(alloc, prefix)?,
            uri: ArcStr::from_str(alloc, uri)?,
        })
    }

    fn prefix(&self) -> &str
        ensures { result.now ≡ self.now.prefix }
    {
        self.prefix.as_str()
    }

    fn uri(&self) -> &str
        ensures { result.now ≡ self.now.uri }
    {
        self.uri.as_str()
    }

    // The URI, which shares its memory.
    fn shared_uri(&self) -> Result<ArcStr, AllocError>
        ensures { IfOk result (λ u. arc_str_bytes u ≡ self.now.uri) }
    {
        self.uri.clone()
    }
}

// Notes the URI of a prefix that has none so far.
fn note_uri(
    uris: &mut HashMap<String, ArcStr>,
    alloc: Global,
    prefix: &str,
    uri: ArcStr,
) -> Result<(), AllocError>
    ensures noted { OnOk result ((other : List ℕ) → uri_in uris.new other ≡ or_else (uri_in uris.old other) (if bytes_eq prefix.now other then Some (arc_str_bytes uri) else None)) }
    ensures kept { OnErr result ((other : List ℕ) → uri_in uris.new other ≡ uri_in uris.old other) }
{
    if uris.contains_key(prefix) {
        return Ok(());
    }
    let key = String::from_str(alloc, prefix)?;
    uris.insert(key, uri)?;
    Ok(())
}

// The prefix `xml` (Namespaces in XML 1.0, section 3).
const XML_PREFIX: &str = "xml";

/// The URI that the prefix `xml` stands for, whatever is declared (Namespaces in XML 1.0, section 3).
pub const XML_URI: &str = "http://www.w3.org/XML/1998/namespace";

/// The prefixes and URIs that a document's outermost element declares, in their order.
///
/// Contracts see the list of the declarations. A look-up by prefix costs no pass over them.
#[derive(Debug, Drop)]
pub struct Spaces {
    declarations: Vec<Declaration>,
    // The URI of the first declaration of each prefix.
    uris: HashMap<String, ArcStr>,
}

impl Model for Spaces {
    ghost use Rattle.std.specs.Prelude.{List};
    ghost use Rattle.serna_kinds.specs.Names.{Space};
    ghost use Rattle.serna_kinds.specs.Lookups.{AreIndexed};

    ghost Value = { List Space };

    ghost view = { λ s. s.declarations.items };

    ghost invariant = { λ s. AreIndexed s.declarations.items s.uris };
}

impl Spaces {
    /// No declarations. Takes no memory.
    pub fn new(alloc: Global) -> Spaces
        ensures { result ≡ [] }
    {
        Spaces {
            declarations: Vec::new(alloc),
            uris: HashMap::new(alloc),
        }
    }

    /// Adds a declaration at the end. After an error the declarations are as before.
    pub fn declare(&mut self, alloc: Global, prefix: &str, uri: &str) -> Result<(), NoMemory>
        ensures ok { OnOk result (self.new ≡ self.old ++ space prefix.now uri.now ∷ []) }
        ensures err { OnErr result (self.new ≡ self.old) }
    {
        let declaration = Declaration::from_parts(alloc, prefix, uri)?;
        let shared = declaration.shared_uri()?;
        self.declarations.reserve(1)?;
        note_uri(&mut self.uris, alloc, prefix, shared)?;
        self.declarations.push(declaration).unwrap();
        Ok(())
    }

    /// The URI of the first declaration of a prefix, None exactly where there is none.
    pub fn uri(&self, prefix: &str) -> Option<&str>
        ensures { option_map (λ u. u.now) result ≡ uri_of self.now prefix.now }
    {
        let uri = self.uris.get(prefix)?;
        Some(uri.as_str())
    }

    /// The URI that a prefix stands for: `xml` has its own, whatever is declared (Namespaces in XML 1.0, section 3).
    /// None exactly where nothing declares the prefix.
    pub fn uri_for(&self, prefix: &str) -> Option<&str>
        ensures { option_map (λ u. u.now) result ≡ uri_for self.now prefix.now }
    {
        if prefix == XML_PREFIX {
            return Some(XML_URI);
        }
        self.uri(prefix)
    }

    /// The URI of an element's name by its prefix. Without a prefix it is that of the default namespace, or empty where that
    /// is not declared (Namespaces in XML 1.0, section 6.2). None exactly where nothing declares the prefix.
    pub fn element_uri(&self, prefix: &str) -> Option<&str>
        ensures { option_map (λ u. u.now) result ≡ element_uri self.now prefix.now }
    {
        if !prefix.is_empty() {
            return self.uri_for(prefix);
        }
        match self.uri("") {
            Some(uri) => Some(uri),
            None => Some(""),
        }
    }

    /// The URI of an attribute's name by its prefix, empty without a prefix (Namespaces in XML 1.0, section 6.2).
    /// None exactly where nothing declares the prefix.
    pub fn attribute_uri(&self, prefix: &str) -> Option<&str>
        ensures { option_map (λ u. u.now) result ≡ attribute_uri self.now prefix.now }
    {
        if prefix.is_empty() {
            return Some("");
        }
        self.uri_for(prefix)
    }

    /// How many declarations there are. Any call for it tells that prefixes and URIs are text.
    pub fn len(&self) -> usize
        ensures len { result ≡ length self.now }
        ensures texts { AreTexts self.now }
    {
        self.declarations.len()
    }

    /// Whether nothing is declared.
    pub fn is_empty(&self) -> bool
        ensures { IsTrue result ↔ (length self.now ≡ 0) }
    {
        self.len() == 0
    }

    /// The prefix (empty: the default namespace) and the URI of the declaration at a place, from 0. None exactly past the
    /// last one.
    pub fn declaration(&self, place: usize) -> Option<(&str, &str)>
        ensures { option_map (λ d. space d.0.now d.1.now) result ≡ slice_get self.now place }
    {
        let declaration = self.declarations.get(place)?;
        Some((declaration.prefix(), declaration.uri()))
    }

    /// The same declarations, in memory of their own.
    pub fn copy(&self, alloc: Global) -> Result<Spaces, NoMemory>
        ensures { IfOk result (λ s. s ≡ self.now) }
    {
        let mut copy = Spaces::new(alloc);
        for declaration in &self.declarations {
            copy.declare(alloc, declaration.prefix(), declaration.uri())?;
        }
        Ok(copy)
    }
}
