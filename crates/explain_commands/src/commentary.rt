//! Follows the lines of a script while the script runs, and comments on the lines.
use crate::answer::{Printed, printed_as};
use crate::resources::resource_of;
use crate::scene::Scene;
use adapters::Adapter;
use explain_scripts::{RefusedDocument, explain_bad_line, explain_document};
use links::LinkStore;
use mm_types::{DocFault, Refused, ResourceNo};
use repository::Repository;
use script_lines::{Form, Line, parse_line};
use std::alloc::{AllocError, Global};
use std::mem;
use web_uris::{UriFault, joined};

/// Which lines of a script are commented on.
#[derive(Clone, Copy)]
pub struct Talk {
    /// Whether each bad line is explained, and each refusal other than `Memory`.
    pub explains: bool,
    /// Whether a person types the lines. If so, the comment on a line `help`, `quit` or `exit` is no explanation, but says what to type
    /// instead.
    pub guides: bool,
}

/// What is known of a script while it runs, and the comments on its lines.
#[derive(Drop)]
pub struct Commentary {
    alloc: Global,
    talk: Talk,
    /// The highest number of an adapter that a line can attach.
    adapters: u32,
    /// The number of the last line that was run, counted from 1; 0 before the first line.
    number: u64,
    /// How many objects were made.
    objects: u64,
    /// The URIs of the resources, in the order of the resources' numbers.
    uris: Vec<String>,
    /// The comments that were not taken yet.
    said: String,
    /// Whether memory was refused for a URI or a comment. If so, a URI may be missing, and no further line is commented on.
    is_lost: bool,
}

impl Commentary {
    /// A commentary on a script of which no line was run. The script can attach the adapters with the numbers 1 to `adapters`. Takes no
    /// memory.
    pub fn new(alloc: Global, talk: Talk, adapters: u32) -> Self {
        Commentary {
            alloc,
            talk,
            adapters,
            number: 0,
            objects: 0,
            uris: Vec::new(alloc),
            said: String::new(alloc),
            is_lost: false,
        }
    }

    /// Notes that the next line is the first line of the script. All lines that were run before are lines of a journal, and are not
    /// counted.
    pub fn begin(&mut self) {
        self.number = 0;
    }

    /// The resource that has the URI `text`; `text` is normalised first.
    ///
    /// Refused, the first that applies: `Memory`, also if memory was refused before for a URI or a comment; `BadUri`; `NoResource`.
    pub fn resource_named(&self, text: &str) -> Result<ResourceNo, Refused> {
        if self.is_lost {
            return Err(Refused::Memory);
        }
        match joined(self.alloc, "", text) {
            Ok(uri) => match resource_of(self.uris.as_slice(), uri.as_str()) {
                Some(resource) => Ok(resource),
                None => Err(Refused::NoResource),
            },
            Err(UriFault::Bad) => Err(Refused::BadUri),
            Err(UriFault::Memory) => Err(Refused::Memory),
        }
    }

    /// Takes the comments that were made since the last call: lines, each ended by a newline.
    pub fn take(&mut self) -> String {
        mem::replace(&mut self.said, String::new(self.alloc))
    }

    /// Counts a line that was run, and notes from its output `printed` what the line made. Comments on the line if `Talk` asks for a
    /// comment. If memory was refused before for a URI or a comment, the line is counted, and nothing else is done.
    pub fn line_was_run<L: LinkStore, A: Adapter>(
        &mut self,
        repository: &Repository<L, A>,
        line: &[u8],
        printed: &[u8],
    ) {
        self.number = self.number.saturating_add(1);
        if self.is_lost {
            return;
        }
        let noted = self.note(repository, line, printed_as(printed));
        self.is_lost = noted.is_err();
    }

    /// Notes the URI of a resource that was made without a line of the script, and how many objects were loaded into the resource. For the
    /// lines `resource` and `load`, `line_was_run` notes both.
    pub fn resource_was_loaded(&mut self, uri: &str, objects: u64) {
        let noted = self.note_uri(uri);
        self.is_lost = self.is_lost || noted.is_err();
        self.objects = self.objects.saturating_add(objects);
    }

    fn note<L: LinkStore, A: Adapter>(
        &mut self,
        repository: &Repository<L, A>,
        line: &[u8],
        printed: Printed,
    ) -> Result<(), AllocError> {
        match printed {
            Printed::Object(number) => {
                self.objects = self.objects.max(u64::from(number).saturating_add(1));
                Ok(())
            }
            Printed::Loaded(count) => {
                self.objects = self.objects.saturating_add(u64::from(count));
                Ok(())
            }
            Printed::Resource(number) if number as usize == self.uris.len() => {
                self.note_resource(line)
            }
            Printed::Bad => self.speak_of_bad(line),
            Printed::Refused(refused) if self.talk.explains => {
                self.explain_line(repository, line, refused)
            }
            _ => Ok(()),
        }
    }

    /// Notes the URI of a resource; `text` is the URI, and is normalised first.
    fn note_uri(&mut self, text: &str) -> Result<(), AllocError> {
        match joined(self.alloc, "", text) {
            Ok(uri) => Ok(self.uris.push(uri)?),
            // A text that gives no URI made no resource, so there is nothing to note.
            Err(UriFault::Bad) => Ok(()),
            Err(UriFault::Memory) => Err(AllocError),
        }
    }

    /// Notes the URI of the resource that a line made.
    fn note_resource(&mut self, line: &[u8]) -> Result<(), AllocError> {
        match parse_line(self.alloc, line)? {
            Line::Form(Form::Resource(text)) => self.note_uri(text.as_str()),
            _ => Ok(()),
        }
    }

    /// Says what is wrong with a bad line, or what to type in its place, if `Talk` asks for it.
    fn speak_of_bad(&mut self, line: &[u8]) -> Result<(), AllocError> {
        if self.talk.guides
            && let Some(advice) = advice_for(line)
        {
            return writeln!(self.said, "{advice}");
        }
        if self.talk.explains {
            explain_bad_line(self.alloc, &mut self.said, self.number, line)?;
        }
        Ok(())
    }

    /// Explains why the command of a line was refused.
    fn explain_line<L: LinkStore, A: Adapter>(
        &mut self,
        repository: &Repository<L, A>,
        line: &[u8],
        refused: Refused,
    ) -> Result<(), AllocError> {
        let Line::Form(form) = parse_line(self.alloc, line)? else {
            return Ok(());
        };
        let prefix = format!(in self.alloc; "line {}", self.number)?;
        let text = self.explained(repository, prefix.as_str(), &form, refused)?;
        self.said.push_str(text.as_str())
    }

    /// The explanation of why the command with the form `form` was refused, in lines that begin with `prefix`. The repository has to be as
    /// it was when the command was refused. The explanation of the refusal `Memory` is empty. Fails only if memory is refused.
    pub fn explained<L: LinkStore, A: Adapter>(
        &self,
        repository: &Repository<L, A>,
        prefix: &str,
        form: &Form<'_>,
        refused: Refused,
    ) -> Result<String, AllocError> {
        let mut text = String::new(self.alloc);
        if let Refused::Document(cause) = refused {
            self.explain_load(&mut text, repository, prefix, form, cause)?;
            return Ok(text);
        }
        let scene = Scene {
            alloc: self.alloc,
            prefix,
            repository,
            uris: self.uris.as_slice(),
            objects: self.objects,
            adapters: self.adapters,
        };
        scene.explain_refusal(&mut text, form, refused)?;
        Ok(text)
    }

    /// Explains why the document of a `load` line is refused.
    fn explain_load<L: LinkStore, A: Adapter>(
        &self,
        out: &mut String,
        repository: &Repository<L, A>,
        prefix: &str,
        form: &Form<'_>,
        cause: DocFault,
    ) -> Result<(), AllocError> {
        let Form::Load { resource, text } = form else {
            return Ok(());
        };
        let refused = RefusedDocument {
            prefix,
            uri: uri_of(self.uris.as_slice(), *resource),
            text: text.as_str(),
            cause,
        };
        explain_document(self.alloc, out, repository.meta(), &refused)
    }
}

/// The URI of a resource; empty if the URI is not known.
fn uri_of(uris: &[String], resource: ResourceNo) -> &str {
    match uris.get(resource.0 as usize) {
        Some(uri) => uri.as_str(),
        None => "",
    }
}

/// The advice for a person who types a line that is just `help`, `quit` or `exit`, which are no commands; `None` for any other line.
fn advice_for(line: &[u8]) -> Option<&'static str> {
    match line.trim_ascii() {
        b"help" => Some("mmrepo --help shows what can be typed; Ctrl-D ends the program"),
        b"quit" | b"exit" => Some("Ctrl-D ends the program"),
        _ => None,
    }
}
