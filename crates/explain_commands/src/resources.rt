//! URIs that no resource can have, URIs that a resource has already, and resources that are not empty.
use crate::called::URI_BYTES;
use crate::scene::{Scene, Written};
use adapters::Adapter;
use explain::front_of;
use links::LinkStore;
use mm_types::{Node, Read, ResourceNo};
use models::Found;
use script_lines::Form;
use std::alloc::AllocError;
use web_uris::{UriFault, joined};

/// Whether a byte may be in the scheme of a URI.
fn is_scheme_byte(byte: u8) -> bool {
    byte.is_ascii_alphanumeric() || matches!(byte, b'+' | b'-' | b'.')
}

/// The scheme with which a text begins; `None` if the text begins with no scheme, as a relative reference does.
fn scheme_of(text: &str) -> Option<&str> {
    let (scheme, _) = text.split_once(':')?;
    let bytes = scheme.as_bytes();
    let begins = bytes.first().is_some_and(|byte| byte.is_ascii_alphabetic());
    if begins && bytes.iter().all(|byte| is_scheme_byte(*byte)) {
        Some(scheme)
    } else {
        None
    }
}

/// Whether the URI of a resource can have the given scheme.
fn is_of_the_web(scheme: &str) -> bool {
    scheme.eq_ignore_ascii_case("http") || scheme.eq_ignore_ascii_case("https")
}

impl<L: LinkStore, A: Adapter> Scene<'_, L, A> {
    /// Explains why a text can't be the URI of a resource.
    fn explain_uri(&self, out: &mut String, text: &str) -> Written {
        let prefix = self.prefix;
        let shown = front_of(text, URI_BYTES);
        match scheme_of(text.trim_start()) {
            None => writeln!(
                out,
                "{prefix}: {shown:?} is relative, and has to begin with http:// or https://"
            ),
            Some(scheme) if !is_of_the_web(scheme) => {
                let scheme = front_of(scheme, URI_BYTES);
                writeln!(
                    out,
                    "{prefix}: the scheme of {shown:?} is {scheme:?}, and has to be http or https"
                )
            }
            Some(_) if text.contains('#') => writeln!(
                out,
                "{prefix}: {shown:?} has a fragment; leave out the # and what follows it"
            ),
            Some(_) => writeln!(out, "{prefix}: {shown:?} is no URI of http or https"),
        }
    }

    /// Explains why the text of a `resource` line can't be the URI of a resource, or that the text of an `at` line is no address, since it
    /// has no `#`.
    pub(crate) fn explain_bad_uri(&self, out: &mut String, form: &Form<'_>) -> Written {
        let prefix = self.prefix;
        match form {
            Form::Resource(text) => self.explain_uri(out, text.as_str()),
            Form::Read(Read::ObjectAt(text)) => {
                let shown = front_of(text.as_str(), URI_BYTES);
                writeln!(
                    out,
                    "{prefix}: {shown:?} has no fragment; an address is a URI, # and a fragment, as \"http://m.example/a#/\""
                )
            }
            _ => Ok(()),
        }
    }
}

/// The resource that has the URI `uri`; `None` if no resource has it. `uris` has the URIs of all resources, in the order of the resources'
/// numbers.
pub(crate) fn resource_of(uris: &[String], uri: &str) -> Option<ResourceNo> {
    for (number, other) in uris.iter().enumerate() {
        if other.as_str() == uri {
            return u32::try_from(number).ok().map(ResourceNo);
        }
    }
    None
}

impl<L: LinkStore, A: Adapter> Scene<'_, L, A> {
    /// Explains that a resource has the URI of a `resource` line already.
    pub(crate) fn explain_exists(&self, out: &mut String, form: &Form<'_>) -> Written {
        let prefix = self.prefix;
        let Form::Resource(text) = form else {
            return Ok(());
        };
        let uri = match joined(self.alloc, "", text.as_str()) {
            Ok(uri) => uri,
            Err(UriFault::Memory) => return Err(AllocError),
            Err(UriFault::Bad) => return Ok(()),
        };
        match resource_of(self.uris, uri.as_str()) {
            Some(resource) => {
                let shown = front_of(uri.as_str(), URI_BYTES);
                writeln!(
                    out,
                    "{prefix}: r{} has the URI {shown:?} already",
                    resource.0
                )
            }
            None => Ok(()),
        }
    }

    /// Explains that a resource is not empty.
    pub(crate) fn explain_not_empty(&self, out: &mut String, resource: ResourceNo) -> Written {
        let prefix = self.prefix;
        let number = resource.0;
        let contents = self.repository.meta().contents();
        match self
            .repository
            .list_value(Node::Resource(resource), contents, 0)
        {
            Ok(Found::Object(root)) => {
                let root = self.object_called(root)?;
                writeln!(
                    out,
                    "{prefix}: r{number} has a root, {root}, and load takes an empty resource"
                )
            }
            _ => Ok(()),
        }
    }
}
