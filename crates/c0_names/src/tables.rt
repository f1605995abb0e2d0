//! The tables of a text: what the names of its items stand for.

ghost use Rattle.std.specs.Prelude.{◌≡◌, [], map, length, fold, IfOk, OnOk, is_some, Some, None};
ghost use Rattle.std.proofs.Math.ListN.{replicate};
ghost use Rattle.std.specs.Option.{option_copied, option_map};
ghost use Rattle.parsed_tree.specs.Views.{predicate_view, item_view, program_view};
ghost use Rattle.c0_names.specs.Tables.{struct_number, type_in, signature_in, with_type, with_first_type, with_signature, stars, base_type, value_type, result_type, param_types, head_signature, no_types, fields_behind, fields_of, with_fields, with_predicate, with_item, with_alias, no_callables, tables_above, tables_of};

use crate::index::Index;
use crate::structs::struct_names;
use crate::types::{BOOL, BaseType, INT, ValueType};
use parsed_tree::{Base, Field, Head, Item, Param, Parsed, PredicateText, ResultType, TypeName};
use sqlite_items::Items;
use std::alloc::{AllocError, Global};

/// Names, and beside each its type: the fields of a struct, or the typedefs that stand above.
#[derive(Drop)]
pub struct TypedNames<'a> {
    pub names: Index<'a>,
    pub types: Items<ValueType>,
}

/// The types of the parameters of a function or predicate, and that of its result.
#[derive(Debug, Drop)]
pub struct Signature {
    pub params: Items<ValueType>,
    pub result: ValueType,
}

/// Names of functions or predicates, each once, and beside each its signature.
#[derive(Drop)]
pub struct Callables<'a> {
    pub names: Index<'a>,
    pub signatures: Items<Signature>,
}

/// What the names of the items of a text stand for.
#[derive(Drop)]
pub struct Tables<'a> {
    /// The structs by their numbers: each name that stands after `struct`, once.
    pub structs: Index<'a>,
    /// The fields of each struct, by the struct's number, where it is defined.
    pub fields: Items<Option<TypedNames<'a>>>,
    pub aliases: TypedNames<'a>,
    pub prototypes: Callables<'a>,
    pub functions: Callables<'a>,
    pub predicates: Callables<'a>,
}

impl<'a> TypedNames<'a> {
    /// No names.
    pub fn new(alloc: Global) -> TypedNames<'a>
        ensures { result ≡ no_types }
    {
        TypedNames {
            names: Index::new(alloc),
            types: Items::new(alloc),
        }
    }

    /// The type beside the last of a name.
    pub fn get(&self, name: &[u8]) -> Option<ValueType>
        ensures { result ≡ type_in self.now name.now }
    {
        let place = self.names.last(name)?;
        self.types.get(place).copied()
    }

    /// Puts a name and its type at the end.
    pub fn push(&mut self, name: &'a [u8], typed: ValueType) -> Result<(), AllocError>
        ensures { OnOk result (self.new ≡ with_type self.old name.now typed) }
    {
        self.names.push(name)?;
        self.types.push(typed)
    }

    /// Puts a name and its type at the end, unless the name is there.
    pub fn add(&mut self, name: &'a [u8], typed: ValueType) -> Result<(), AllocError>
        ensures { OnOk result (self.new ≡ with_first_type self.old name.now typed) }
    {
        if self.names.last(name).is_none() {
            self.push(name, typed)?;
        }
        Ok(())
    }
}

impl<'a> Callables<'a> {
    /// No names.
    pub fn new(alloc: Global) -> Callables<'a>
        ensures { result ≡ no_callables }
    {
        Callables {
            names: Index::new(alloc),
            signatures: Items::new(alloc),
        }
    }

    /// The signature beside a name.
    pub fn get(&self, name: &[u8]) -> Option<&Signature>
        ensures { option_copied result ≡ signature_in self.now name.now }
    {
        match self.names.last(name) {
            Some(place) => self.signatures.get(place),
            None => None,
        }
    }

    /// Puts a name and its signature at the end, unless the name is there.
    pub fn add(&mut self, name: &'a [u8], signature: Signature) -> Result<(), AllocError>
        ensures { OnOk result (self.new ≡ with_signature self.old name.now signature) }
    {
        if self.names.last(name).is_none() {
            self.names.push(name)?;
            self.signatures.push(signature)?;
        }
        Ok(())
    }
}

// The type with more `*` behind it.
fn with_stars(typed: ValueType, more: u32) -> Result<ValueType, AllocError>
    ensures { IfOk result (λ v. v ≡ stars typed more) }
{
    match typed {
        ValueType::Written(base, stars) => match stars.checked_add(u64::from(more)) {
            Some(stars) => Ok(ValueType::Written(base, stars)),
            None => Err(AllocError),
        },
        ValueType::Null => Ok(ValueType::Null),
        ValueType::Void => Ok(ValueType::Void),
        ValueType::Text => Ok(ValueType::Text),
    }
}

impl<'a> Tables<'a> {
    /// The tables above the first item.
    #[tactic(auto, using(crate::proofs::Folds::none_of_each))]
    pub fn new(alloc: Global, structs: Index<'a>) -> Result<Tables<'a>, AllocError>
        ensures { IfOk result (λ t. t ≡ tables_above structs.entry) }
    {
        let fields = no_fields(alloc, structs.len())?;
        Ok(Tables {
            structs,
            fields,
            aliases: TypedNames::new(alloc),
            prototypes: Callables::new(alloc),
            functions: Callables::new(alloc),
            predicates: Callables::new(alloc),
        })
    }

    /// The number of a struct, or the number of all for a name that stands nowhere.
    pub fn struct_number(&self, name: &[u8]) -> usize
        ensures { result ≡ struct_number self.now.structs name.now }
    {
        match self.structs.last(name) {
            Some(number) => number,
            None => self.structs.len(),
        }
    }

    /// The fields of a struct by its number, where it is defined.
    pub fn fields_of(&self, number: usize) -> Option<&TypedNames<'a>>
        ensures { option_copied result ≡ fields_of self.now number }
    {
        match self.fields.get(number) {
            Some(Some(fields)) => Some(fields),
            _ => None,
        }
    }

    fn base_type(&self, base: &Base) -> ValueType
        ensures { result ≡ base_type self.now base.now }
    {
        match base {
            Base::Int => INT,
            Base::Bool => BOOL,
            Base::Struct(name) => {
                ValueType::Written(
                    BaseType::Struct(self.struct_number(name.name.as_slice())),
                    0,
                )
            }
            Base::Alias(name) => match self.aliases.get(name.as_slice()) {
                Some(typed) => typed,
                None => ValueType::Void,
            },
        }
    }

    /// The type that a text writes. It is refused where its `*` are more than 2^64 - 1.
    pub fn value_type(&self, typed: &TypeName) -> Result<ValueType, AllocError>
        ensures { IfOk result (λ v. v ≡ value_type self.now typed.now) }
    {
        with_stars(self.base_type(&typed.base), typed.stars)
    }

    /// The type of a function's result.
    pub fn result_type(&self, written: &ResultType) -> Result<ValueType, AllocError>
        ensures { IfOk result (λ v. v ≡ result_type self.now written.now) }
    {
        match written {
            ResultType::Void(_) => Ok(ValueType::Void),
            ResultType::Typed(typed) => self.value_type(typed),
        }
    }

    fn param_types(&self, alloc: Global, params: &[Param]) -> Result<Items<ValueType>, AllocError>
        ensures { IfOk result (λ types. types ≡ param_types self.now params.now) }
    {
        let mut types = Items::new(alloc);
        for param in params {
            types.push(self.value_type(&param.typed)?)?;
        }
        Ok(types)
    }

    /// What a function takes and gives.
    pub fn head_signature(&self, alloc: Global, head: &Head) -> Result<Signature, AllocError>
        ensures { IfOk result (λ s. s ≡ head_signature self.now head.now) }
    {
        let params = self.param_types(alloc, head.params.as_slice())?;
        let result = self.result_type(&head.result)?;
        Ok(Signature { params, result })
    }

    fn fields_behind(
        &self,
        alloc: Global,
        fields: &'a [Field],
    ) -> Result<TypedNames<'a>, AllocError>
        ensures { IfOk result (λ made. made ≡ fields_behind self.now no_types fields.now) }
    {
        let mut made = TypedNames::new(alloc);
        for field in fields {
            let typed = self.value_type(&field.typed)?;
            made.add(field.name.name.as_slice(), typed)?;
        }
        Ok(made)
    }

    fn define_struct(&mut self, number: usize, fields: TypedNames<'a>)
        ensures { self.new ≡ with_fields self.old number fields.entry }
    {
        if self.fields_of(number).is_none() && number < self.fields.len() {
            self.fields.set(number, Some(fields));
        }
    }

    /// Adds a predicate.
    pub fn add_predicate(
        &mut self,
        alloc: Global,
        predicate: &'a PredicateText,
    ) -> Result<(), AllocError>
        ensures { OnOk result (self.new ≡ with_predicate self.old (predicate_view predicate.now)) }
    {
        let params = self.param_types(alloc, predicate.params.as_slice())?;
        let signature = Signature {
            params,
            result: ValueType::Void,
        };
        self.predicates
            .add(predicate.name.name.as_slice(), signature)
    }

    fn add_predicates(
        &mut self,
        alloc: Global,
        predicates: &'a [PredicateText],
    ) -> Result<(), AllocError>
        ensures { OnOk result (self.new ≡ fold with_predicate self.old (map predicate_view predicates.now)) }
    {
        for predicate in predicates {
            self.add_predicate(alloc, predicate)?;
        }
        Ok(())
    }

    /// Adds an item that is a typedef, and no other.
    pub fn add_alias(&mut self, item: &'a Item) -> Result<(), AllocError>
        ensures { OnOk result (self.new ≡ with_alias self.old (item_view item.now)) }
    {
        match item {
            Item::Typedef { typed, name, .. } => {
                let typed = self.value_type(typed)?;
                self.aliases.push(name.name.as_slice(), typed)
            }
            _ => Ok(()),
        }
    }

    /// Adds an item.
    pub fn add_item(&mut self, alloc: Global, item: &'a Item) -> Result<(), AllocError>
        ensures { OnOk result (self.new ≡ with_item self.old (item_view item.now)) }
    {
        match item {
            Item::StructName { .. } => Ok(()),
            Item::Struct { name, fields, .. } => {
                let number = self.struct_number(name.name.as_slice());
                let fields = self.fields_behind(alloc, fields.as_slice())?;
                self.define_struct(number, fields);
                Ok(())
            }
            Item::Typedef { typed, name, .. } => {
                let typed = self.value_type(typed)?;
                self.aliases.push(name.name.as_slice(), typed)
            }
            Item::Prototype { head, .. } => {
                let signature = self.head_signature(alloc, head)?;
                self.prototypes.add(head.name.name.as_slice(), signature)
            }
            Item::Function { head, .. } => {
                let signature = self.head_signature(alloc, head)?;
                self.functions.add(head.name.name.as_slice(), signature)
            }
            Item::Predicates { predicates, .. } => {
                self.add_predicates(alloc, predicates.as_slice())
            }
        }
    }
}

// So many structs without a definition.
fn no_fields<'a>(alloc: Global, count: usize) -> Result<Items<Option<TypedNames<'a>>>, AllocError>
    ensures { IfOk result (λ fields. fields ≡ replicate count None) }
{
    let mut fields = Items::new(alloc);
    for _ in 0..count {
        fields.push(None)?;
    }
    Ok(fields)
}

/// The tables of a whole text.
///
/// # Errors
///
/// Where there is not memory enough, or a type has more than 2^64 - 1 `*`.
pub fn tables_of<'a>(alloc: Global, parsed: &'a Parsed) -> Result<Tables<'a>, AllocError>
    ensures { IfOk result (λ t. t ≡ tables_of (program_view parsed.now)) }
{
    let structs = struct_names(alloc, parsed)?;
    let mut tables = Tables::new(alloc, structs)?;
    for item in parsed.items.as_slice() {
        tables.add_item(alloc, item)?;
    }
    Ok(tables)
}
