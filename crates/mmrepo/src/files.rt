//! Loads resources from files, before the script.
use crate::asked::{Asked, ResourceFile};
use crate::explained::{explained_open, explained_read};
use crate::stop::Stop;
use crate::watched::Watching;
use adapters::Adapter;
use links::LinkStore;
use mm_types::{Node, Refused, ResourceNo, Text};
use repository::{Answer, Repository};
use script_lines::Form;
use script_program::load_resource;
use script_streams::RunFault;
use std::alloc::AllocError;
use std::fs::File;
use std::io::Read;
use std::{fs, io, str};

/// An empty vector with capacity for one byte more than a file has now. If the length of the file can't be found out, it counts as 0. Fails
/// only if memory is refused.
fn room_for(rt: &HostRuntime, file: &File) -> Result<Vec<u8>, AllocError> {
    let len = match file.metadata() {
        Ok(metadata) => usize::try_from(metadata.len()).unwrap_or(0),
        Err(_) => 0,
    };
    Vec::with_capacity(rt.alloc(), len.saturating_add(1))
}

/// All bytes of a file, which may have any length.
fn bytes_of(rt: &HostRuntime, asked: &Asked, path: &str) -> Result<Vec<u8>, Stop> {
    let mut file = match fs::open(rt, path) {
        Ok(file) => file,
        Err(error) => return Err(explained_open(rt, asked.names_files, path, error)),
    };
    let mut bytes = room_for(rt, &file)?;
    match file.read_to_end(&mut bytes) {
        Ok(_) => Ok(bytes),
        Err(error) if error.kind() == io::ErrorKind::OutOfMemory => {
            Err(Stop::Run(RunFault::Memory))
        }
        Err(_) => Err(explained_read(rt, asked.names_files, path, RunFault::Read)),
    }
}

/// Why the program stops if the resource of a file is not loaded or not saved. With `--explain` the result has the explanation that a
/// script line of the form `form` would get.
pub(crate) fn refused_form<L: LinkStore, A: Adapter>(
    rt: &HostRuntime,
    asked: &Asked,
    repository: &Repository<L, A>,
    watch: Watching<'_>,
    file: &str,
    form: &Form<'_>,
    refused: Refused,
) -> Result<Stop, AllocError> {
    let mut text = String::new(rt.alloc());
    if asked.explain
        && let Some(watch) = watch
        && let Ok(watch) = watch.try_borrow()
    {
        text = watch.explained(repository, file, form, refused)?;
    }
    let file = String::from_str(rt.alloc(), file)?;
    Ok(Stop::Resource(file, refused, text))
}

/// Why the program stops for a document that is not UTF-8. With `--explain` the result has a text that names the first byte that is not
/// UTF-8.
fn not_utf8(
    rt: &HostRuntime,
    asked: &Asked,
    path: &str,
    refused: Refused,
    error: str::Utf8Error,
) -> Result<Stop, AllocError> {
    let byte = error.valid_up_to().saturating_add(1);
    let text = if asked.explain {
        format!(in rt.alloc(); "{path}: from byte {byte} on the document is not UTF-8\n")?
    } else {
        String::new(rt.alloc())
    };
    let file = String::from_str(rt.alloc(), path)?;
    Ok(Stop::Resource(file, refused, text))
}

/// Whether there is a resource with a given number.
fn is_made<L: LinkStore, A: Adapter>(repository: &Repository<L, A>, resource: ResourceNo) -> bool {
    let contents = repository.meta().contents();
    repository
        .list_len(Node::Resource(resource), contents)
        .is_ok()
}

/// Notes in the watch, if there is one, that a resource was made, and how many objects were loaded into the resource.
fn note(watch: Watching<'_>, uri: &str, objects: u64) {
    if let Some(watch) = watch
        && let Ok(mut watch) = watch.try_borrow_mut()
    {
        watch.resource_was_loaded(uri, objects);
    }
}

/// Why the program stops if a file is not loaded: its resource was not made, or its document is refused. If the resource was made, the
/// watch notes the resource before the refusal is explained.
fn not_loaded<L: LinkStore, A: Adapter>(
    rt: &HostRuntime,
    asked: &Asked,
    repository: &Repository<L, A>,
    watch: Watching<'_>,
    from: &ResourceFile,
    resource: ResourceNo,
    document: &[u8],
    refused: Refused,
) -> Result<Stop, AllocError> {
    let path = from.file.as_str();
    let uri = from.uri.as_str();
    if !is_made(repository, resource) {
        let form = Form::Resource(Text::from_str(rt.alloc(), uri)?);
        return refused_form(rt, asked, repository, watch, path, &form, refused);
    }
    note(watch, uri, 0);
    match str::from_utf8(document) {
        Ok(text) => {
            let text = Text::from_str(rt.alloc(), text)?;
            let form = Form::Load { resource, text };
            refused_form(rt, asked, repository, watch, path, &form, refused)
        }
        Err(error) => not_utf8(rt, asked, path, refused, error),
    }
}

/// Makes a resource, and loads the document of a file into the resource. `resource` has to be the number that the next new resource gets.
fn load_file<L: LinkStore, A: Adapter>(
    rt: &HostRuntime,
    asked: &Asked,
    repository: &mut Repository<L, A>,
    watch: Watching<'_>,
    from: &ResourceFile,
    resource: ResourceNo,
) -> Result<(), Stop> {
    let document = bytes_of(rt, asked, from.file.as_str())?;
    match load_resource(repository, from.uri.as_str(), document.as_slice()) {
        Ok(reply) => {
            if let Answer::Loaded(objects) = reply.answer {
                note(watch, from.uri.as_str(), objects);
            }
            Ok(())
        }
        Err(refused) => Err(not_loaded(
            rt,
            asked,
            repository,
            watch,
            from,
            resource,
            document.as_slice(),
            refused,
        )?),
    }
}

/// Loads the files of the `--load` options, in the order of the options. The repository must have no resource, so that the new resources
/// get the numbers from 0 on.
pub(crate) fn load_files<L: LinkStore, A: Adapter>(
    rt: &HostRuntime,
    asked: &Asked,
    repository: &mut Repository<L, A>,
    watch: Watching<'_>,
) -> Result<(), Stop> {
    for (number, from) in (0..u32::MAX).zip(&asked.load) {
        load_file(rt, asked, repository, watch, from, ResourceNo(number))?;
    }
    Ok(())
}
