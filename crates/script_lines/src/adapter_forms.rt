//! The forms of lines about adapters.
ghost use Rattle.std.specs.Prelude.{◌≡◌};
ghost use Rattle.script_lines.specs.Forms.{attach_form, depth_in, detach_form, seen_form, unwatch_form, watch_form};

use crate::form::Form;
use crate::values::{adapter_of, node_of};

/// Whether a target is deep: no for the word `flat`, yes for `deep`; `None` for any other word.
fn depth_of(word: &str) -> Option<bool>
    ensures { result ≡ depth_in word.now }
{
    if word == "flat" {
        Some(false)
    } else if word == "deep" {
        Some(true)
    } else {
        None
    }
}

/// `attach AD NODE flat` or `attach AD NODE deep`
pub(crate) fn attach_of<'a>(adapter: &str, target: &str, depth: &str) -> Option<Form<'a>>
    ensures { result ≡ attach_form adapter.now target.now depth.now }
{
    let no = adapter_of(adapter)?;
    let target = node_of(target)?;
    let deep = depth_of(depth)?;
    Some(Form::Attach { no, target, deep })
}

/// `watch AD NODE flat` or `watch AD NODE deep`
pub(crate) fn watch_of<'a>(adapter: &str, target: &str, depth: &str) -> Option<Form<'a>>
    ensures { result ≡ watch_form adapter.now target.now depth.now }
{
    let no = adapter_of(adapter)?;
    let target = node_of(target)?;
    let deep = depth_of(depth)?;
    Some(Form::Watch { no, target, deep })
}

/// `unwatch AD NODE`
pub(crate) fn unwatch_of<'a>(adapter: &str, target: &str) -> Option<Form<'a>>
    ensures { result ≡ unwatch_form adapter.now target.now }
{
    let no = adapter_of(adapter)?;
    let target = node_of(target)?;
    Some(Form::Unwatch(no, target))
}

/// `detach AD`
pub(crate) fn detach_of<'a>(adapter: &str) -> Option<Form<'a>>
    ensures { result ≡ detach_form adapter.now }
{
    Some(Form::Detach(adapter_of(adapter)?))
}

/// `seen AD`
pub(crate) fn seen_of<'a>(adapter: &str) -> Option<Form<'a>>
    ensures { result ≡ seen_form adapter.now }
{
    Some(Form::Seen(adapter_of(adapter)?))
}
