//! A text of JSON that is written from its beginning.
ghost use Rattle.std.specs.Prelude.{◌≡◌, [], ◌∷◌, ◌++◌, decimal, flat_map, OnOk};
ghost use Rattle.json.specs.Lex.{tokens};
ghost use Rattle.json.specs.Print.{print};
ghost use Rattle.json.specs.Token.{begin_array, begin_object, boolean, end_array, end_object, key, null, number};
ghost use Rattle.json.specs.Token.{string};
ghost use Rattle.share_status.specs.Members.{number_member};

use json::Writer;
use std::alloc::{AllocError, Global};
use std::marker::Model;

/// A text of JSON. A contract sees the tokens that were written.
#[derive(Drop)]
pub(crate) struct JsonText {
    writer: Writer,
}

impl Model for JsonText {
    ghost use Rattle.std.specs.Prelude.{◌≡◌, [], List};
    ghost use Rattle.json.specs.Token.{Token, tokens_code};

    ghost Value = { List Token };

    ghost coded = { tokens_code };

    ghost view = { λ t. t.writer.tokens };

    ghost invariant = { λ t. t.writer.before ≡ [] };
}

impl JsonText {
    /// Nothing is written yet.
    pub(crate) fn new(alloc: Global) -> JsonText
        ensures { result ≡ [] }
    {
        JsonText {
            writer: Writer::new(Vec::new(alloc)),
        }
    }

    /// The bytes of what was written.
    pub(crate) fn into_bytes(self) -> Vec<u8>
        ensures items { result.items ≡ print self }
        ensures reads_back { tokens (print self) ≡ self }
    {
        self.writer.into_inner()
    }

    pub(crate) fn begin_object(&mut self) -> Result<(), AllocError>
        ensures { OnOk result (self.new ≡ self.old ++ begin_object ∷ []) }
    {
        self.writer.begin_object()
    }

    pub(crate) fn end_object(&mut self) -> Result<(), AllocError>
        ensures { OnOk result (self.new ≡ self.old ++ end_object ∷ []) }
    {
        self.writer.end_object()
    }

    pub(crate) fn begin_array(&mut self) -> Result<(), AllocError>
        ensures { OnOk result (self.new ≡ self.old ++ begin_array ∷ []) }
    {
        self.writer.begin_array()
    }

    pub(crate) fn end_array(&mut self) -> Result<(), AllocError>
        ensures { OnOk result (self.new ≡ self.old ++ end_array ∷ []) }
    {
        self.writer.end_array()
    }

    pub(crate) fn null(&mut self) -> Result<(), AllocError>
        ensures { OnOk result (self.new ≡ self.old ++ null ∷ []) }
    {
        self.writer.null()
    }

    pub(crate) fn number(&mut self, value: u64) -> Result<(), AllocError>
        ensures { OnOk result (self.new ≡ self.old ++ number (decimal value) ∷ []) }
    {
        self.writer.u64(value)
    }

    pub(crate) fn string(&mut self, text: &str) -> Result<(), AllocError>
        ensures { OnOk result (self.new ≡ self.old ++ string text.now ∷ []) }
    {
        self.writer.string(text)
    }

    /// The name of a member, whose value comes next.
    pub(crate) fn key(&mut self, name: &str) -> Result<(), AllocError>
        ensures { OnOk result (self.new ≡ self.old ++ key name.now ∷ []) }
    {
        self.writer.key(name)
    }

    /// A member that is a string.
    pub(crate) fn string_member(&mut self, name: &str, text: &str) -> Result<(), AllocError>
        ensures { OnOk result (self.new ≡ self.old ++ key name.now ∷ string text.now ∷ []) }
    {
        self.key(name)?;
        self.string(text)
    }

    /// A member that is true or false.
    pub(crate) fn flag_member(&mut self, name: &str, is: bool) -> Result<(), AllocError>
        ensures { OnOk result (self.new ≡ self.old ++ key name.now ∷ boolean is ∷ []) }
    {
        self.key(name)?;
        self.writer.boolean(is)
    }

    /// Members that are numbers, in order.
    pub(crate) fn number_members(&mut self, members: &[(&str, u64)]) -> Result<(), AllocError>
        ensures { OnOk result (self.new ≡ self.old ++ flat_map number_member members.now) }
    {
        'members: for index in 0..members.len() {
            let (name, value) = members[index];
            self.key(name)?;
            self.number(value)?;
        }
        Ok(())
    }
}
