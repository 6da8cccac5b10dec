//! A text to which values, answers and refusals are appended.
ghost use Rattle.std.specs.Prelude.{◌≡◌, ◌<◌, ◌≤◌, ◌+◌, ◌++◌, ◌∷◌, [], length, vec_capacity, vec_len, OnOk};
ghost use Rattle.std.specs.Fmt.{decimal, signed_decimal};
ghost use Rattle.std.specs.List.{list_any};
ghost use Rattle.json.specs.Run.{is_stop};
ghost use Rattle.mm_types.specs.Refusals.{refusal_detail};
ghost use Rattle.script_output.specs.Printed.{adapter_text, cause_detail, class_text, json_text, node_text, proxy_text, refused_text, value_text};

mod features;
mod lists;
mod objects;
mod told;

use json::Writer;
use mm_meta::Meta;
use mm_types::{AdapterNo, ClassNo, DocFault, Node, Refused, Value};
use script_lines::grammar::{
    ADAPTER_MARK, LITERAL_MARK, MINUS, NEWLINE, OBJECT_MARK, QUOTE, RESOURCE_MARK, SPACE,
};
use std::alloc::{AllocError, Global};
use std::marker::Model;
use std::mem;

/// A text that grows at its end. Contracts see its bytes. A call that fails for lack of memory may have added a part of what it should add.
#[derive(Drop)]
pub struct Output {
    alloc: Global,
    bytes: Vec<u8>,
}

impl Model for Output {
    ghost use Rattle.std.specs.Prelude.{List, ℕ};

    ghost Value = { List ℕ };

    ghost view = { λ o. o.bytes.items };
}

impl Output {
    /// An empty text. Takes no memory.
    pub fn new(alloc: Global) -> Self
        ensures { result ≡ [] }
    {
        Output {
            alloc,
            bytes: Vec::new(alloc),
        }
    }

    /// The text's bytes.
    pub fn as_bytes(&self) -> &[u8]
        ensures { result.now ≡ self.now }
    {
        self.bytes.as_slice()
    }

    /// Makes the text empty; its memory is kept. Takes no memory.
    pub fn clear(&mut self)
        ensures { self.new ≡ [] }
    {
        self.bytes.clear();
    }

    /// Adds a text as it is.
    #[inline]
    pub fn text(&mut self, text: &str) -> Result<(), AllocError>
        ensures ok { OnOk result (self.new ≡ self.old ++ text.now) }
    {
        self.bytes.extend_from_slice(text.as_bytes())
    }

    /// Adds a short text byte by byte. If the text is known when the caller is compiled, this takes fewer steps than the method `text`,
    /// which copies the bytes as one block.
    #[inline(always)]
    pub fn short_text(&mut self, text: &str) -> Result<(), AllocError>
        ensures ok { OnOk result (self.new ≡ self.old ++ text.now) }
    {
        self.bytes.reserve(text.len())?;
        push_bytes(&mut self.bytes, text.as_bytes());
        Ok(())
    }

    #[inline]
    fn byte(&mut self, byte: u8) -> Result<(), AllocError>
        ensures ok { OnOk result (self.new ≡ self.old ++ byte ∷ []) }
    {
        self.bytes.push(byte)?;
        Ok(())
    }

    /// Adds the newline that ends a line.
    pub fn line_end(&mut self) -> Result<(), AllocError>
        ensures ok { OnOk result (self.new ≡ self.old ++ NEWLINE ∷ []) }
    {
        self.byte(NEWLINE)
    }

    /// Adds a number in decimal. A number of up to three digits is added without a buffer.
    pub fn natural(&mut self, n: u64) -> Result<(), AllocError>
        ensures ok { OnOk result (self.new ≡ self.old ++ decimal n) }
    {
        if n < 1_000 {
            return self.short_natural(n);
        }
        self.long_natural(n)
    }

    /// Adds a number in decimal, by way of a buffer. The function is never inlined into `natural`: if it were, `natural` would clear the
    /// buffer for a short number too.
    #[inline(never)]
    fn long_natural(&mut self, n: u64) -> Result<(), AllocError>
        ensures ok { OnOk result (self.new ≡ self.old ++ decimal n) }
    {
        let mut buffer = itoa::Buffer::new();
        self.text(buffer.format(n))
    }

    /// Adds a number of up to three digits in decimal.
    fn short_natural(&mut self, n: u64) -> Result<(), AllocError>
        requires { n < 1000 }
        ensures ok { OnOk result (self.new ≡ self.old ++ decimal n) }
    {
        if n < 10 {
            return self.digit(n);
        }
        self.tens(n / 10)?;
        self.digit(n % 10)
    }

    /// Adds a number of up to two digits in decimal.
    fn tens(&mut self, n: u64) -> Result<(), AllocError>
        requires { n < 100 }
        ensures ok { OnOk result (self.new ≡ self.old ++ decimal n) }
    {
        if n < 10 {
            return self.digit(n);
        }
        self.digit(n / 10)?;
        self.digit(n % 10)
    }

    /// Adds a number in decimal, for callers whose numbers mostly have one digit.
    #[inline(always)]
    fn brief(&mut self, n: u64) -> Result<(), AllocError>
        ensures ok { OnOk result (self.new ≡ self.old ++ decimal n) }
    {
        if n < 10 {
            return self.digit(n);
        }
        self.natural(n)
    }

    fn digit(&mut self, n: u64) -> Result<(), AllocError>
        requires { n < 10 }
        ensures ok { OnOk result (self.new ≡ self.old ++ decimal n) }
    {
        self.byte(b'0' + n as u8)
    }

    fn integer(&mut self, n: i64) -> Result<(), AllocError>
        ensures ok { OnOk result (self.new ≡ self.old ++ signed_decimal n) }
    {
        if n >= 0 {
            return self.natural(n.unsigned_abs());
        }
        self.byte(MINUS)?;
        self.brief(n.unsigned_abs())
    }

    /// Adds a text as a JSON string, with the escapes that `serde_json` writes.
    pub fn json(&mut self, text: &str) -> Result<(), AllocError>
        ensures ok { OnOk result (self.new ≡ self.old ++ json_text text.now) }
    {
        if has_escaped(text.as_bytes()) {
            self.escaped(text)
        } else {
            self.quoted(text)
        }
    }

    /// Adds a text in quotation marks, without escapes.
    fn quoted(&mut self, text: &str) -> Result<(), AllocError>
        ensures ok { OnOk result (self.new ≡ self.old ++ QUOTE ∷ (text.now ++ QUOTE ∷ [])) }
    {
        self.byte(QUOTE)?;
        self.text(text)?;
        self.byte(QUOTE)
    }

    /// Adds a text as a JSON string by a writer, which finds the bytes that have to be escaped.
    fn escaped(&mut self, text: &str) -> Result<(), AllocError>
        ensures ok { OnOk result (self.new ≡ self.old ++ json_text text.now) }
    {
        let bytes = mem::replace(&mut self.bytes, Vec::new(self.alloc));
        let mut writer = Writer::new(bytes);
        let result = writer.string(text);
        self.bytes = writer.into_inner();
        result
    }

    /// Adds a node: `#3` for an object, `r0` for a resource.
    pub fn node(&mut self, node: Node) -> Result<(), AllocError>
        ensures ok { OnOk result (self.new ≡ self.old ++ node_text node) }
    {
        match node {
            Node::Object(object) => {
                self.byte(OBJECT_MARK)?;
                self.natural(u64::from(object.0))
            }
            Node::Resource(resource) => {
                self.byte(RESOURCE_MARK)?;
                self.natural(u64::from(resource.0))
            }
        }
    }

    fn adapter(&mut self, no: AdapterNo) -> Result<(), AllocError>
        ensures ok { OnOk result (self.new ≡ self.old ++ adapter_text no) }
    {
        self.byte(ADAPTER_MARK)?;
        self.brief(u64::from(no.0))
    }

    /// Adds a proxy by its text: `proxy "http://m.example/b#/0"`.
    pub fn proxy(&mut self, text: &str) -> Result<(), AllocError>
        ensures ok { OnOk result (self.new ≡ self.old ++ proxy_text text.now) }
    {
        self.text("proxy ")?;
        self.json(text)
    }

    /// Adds a value: `null`, `true`, `-12`, `"Emma"`, `:NOVEL`, `#3`, or `proxy "http://m.example/b#/0"`. If the value is a literal,
    /// `literal` is its name; otherwise `literal` is not used.
    pub fn value(&mut self, value: &Value, literal: &str) -> Result<(), AllocError>
        ensures ok { OnOk result (self.new ≡ self.old ++ value_text literal.now value.now) }
    {
        match value {
            Value::Null => self.text("null"),
            Value::Bool(true) => self.text("true"),
            Value::Bool(false) => self.text("false"),
            Value::Int(n) => self.integer(*n),
            Value::Text(text) => self.json(text.as_str()),
            Value::Literal(_) => {
                self.byte(LITERAL_MARK)?;
                self.text(literal)
            }
            Value::Object(object) => self.node(Node::Object(*object)),
            Value::Proxy(text) => self.proxy(text.as_str()),
        }
    }

    /// Adds a class by its name: `class Book`.
    pub fn class(&mut self, meta: &Meta, class: ClassNo) -> Result<(), AllocError>
        ensures ok { OnOk result (self.new ≡ self.old ++ class_text meta.now class) }
    {
        self.text("class ")?;
        self.text(meta.class_name(class))
    }

    fn cause(&mut self, cause: DocFault) -> Result<(), AllocError>
        ensures ok { OnOk result (self.new ≡ self.old ++ cause_detail cause) }
    {
        self.byte(SPACE)?;
        self.natural(u64::from(cause.number()))?;
        self.byte(SPACE)?;
        self.text(cause.name())
    }

    fn detail(&mut self, refused: Refused) -> Result<(), AllocError>
        ensures ok { OnOk result (self.new ≡ self.old ++ refusal_detail refused) }
    {
        match refused {
            Refused::Document(cause) => self.cause(cause),
            _ => Ok(()),
        }
    }

    /// Adds why a command is refused: `refused 8 TYPE`, or `refused 18 DOCUMENT 10 ONE_SIDED`.
    pub fn refused(&mut self, refused: Refused) -> Result<(), AllocError>
        ensures ok { OnOk result (self.new ≡ self.old ++ refused_text refused) }
    {
        self.text("refused ")?;
        self.natural(u64::from(refused.number()))?;
        self.byte(SPACE)?;
        self.text(refused.name())?;
        self.detail(refused)
    }
}

/// Adds bytes to a list that has capacity for them.
#[inline(always)]
fn push_bytes(bytes: &mut Vec<u8>, added: &[u8])
    requires room { vec_len bytes.old + length added.now ≤ vec_capacity bytes.old }
    ensures { bytes.new.items ≡ bytes.old.items ++ added.now }
{
    for byte in added {
        bytes.push_reserved(*byte);
    }
}

/// Whether a byte has to be escaped in a JSON string.
fn is_escaped(byte: u8) -> bool
    ensures { result ≡ is_stop byte }
{
    byte == b'"' || byte == b'\\' || byte < 32
}

/// Whether some byte of a text has to be escaped in a JSON string. The loop does not stop at the first such byte, so that the compiler can
/// vectorise the loop.
fn has_escaped(bytes: &[u8]) -> bool
    ensures { result ≡ list_any is_stop bytes.now }
{
    let mut found = false;
    for byte in bytes {
        found |= is_escaped(*byte);
    }
    found
}
