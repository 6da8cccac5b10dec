//! Saves resources into files, after the script.
use crate::asked::{Asked, ResourceFile};
use crate::explained::explained_write;
use crate::files::refused_form;
use crate::stop::Stop;
use crate::watched::Watching;
use adapters::Adapter;
use links::LinkStore;
use mm_types::{Read, Refused, ResourceNo, Text};
use repository::Repository;
use script_lines::Form;
use script_streams::RunFault;
use std::alloc::AllocError;
use std::fs::{File, OpenOptions};
use std::io::Write;
use std::{fs, io, process};

/// The resource that is to be saved into a file, found by its URI. Refused with `NoResource`, `BadUri` or `Memory`, as `not_found`
/// explains.
fn resource_for(watch: Watching<'_>, to: &ResourceFile) -> Result<ResourceNo, Refused> {
    if let Some(watch) = watch
        && let Ok(watch) = watch.try_borrow()
    {
        return watch.resource_named(to.uri.as_str());
    }
    Err(Refused::NoResource)
}

/// Why the program stops if the look-up of a resource that is to be saved into a file was refused. `refused` is `NoResource` if no resource
/// has the URI, and `BadUri` if the URI is bad. It is `Memory` if memory was refused for the look-up, or earlier in the run when the watch
/// noted a URI or made a comment.
fn not_found<L: LinkStore, A: Adapter>(
    rt: &HostRuntime,
    asked: &Asked,
    repository: &Repository<L, A>,
    watch: Watching<'_>,
    to: &ResourceFile,
    refused: Refused,
) -> Result<Stop, AllocError> {
    let path = to.file.as_str();
    let uri = to.uri.as_str();
    if refused == Refused::NoResource && asked.explain {
        let text = format!(in rt.alloc(); "{path}: no resource has the URI {uri:?}\n")?;
        let file = String::from_str(rt.alloc(), path)?;
        return Ok(Stop::Resource(file, refused, text));
    }
    let form = Form::Resource(Text::from_str(rt.alloc(), uri)?);
    refused_form(rt, asked, repository, watch, path, &form, refused)
}

/// The document of the resource that is to be saved into a file.
fn document_for<L: LinkStore, A: Adapter>(
    rt: &HostRuntime,
    asked: &Asked,
    repository: &Repository<L, A>,
    watch: Watching<'_>,
    to: &ResourceFile,
) -> Result<Text, Stop> {
    let resource = match resource_for(watch, to) {
        Ok(resource) => resource,
        Err(refused) => return Err(not_found(rt, asked, repository, watch, to, refused)?),
    };
    match repository.save(resource) {
        Ok(text) => Ok(text),
        Err(refused) => {
            let form = Form::Read(Read::Save(resource));
            let path = to.file.as_str();
            Err(refused_form(rt, asked, repository, watch, path, &form, refused)?)
        }
    }
}

/// Writes a document and a newline into a file, and syncs the file to the disk.
fn write_document(mut file: File, document: &str) -> io::Result<()> {
    file.write_all(document.as_bytes())?;
    file.write_all(b"\n")?;
    file.sync_all()
}

/// Replaces a file by a document in one step: a reader of the file finds the old content, or the whole document. If there is no file at the
/// path, makes one. If the replacement fails, the file at the path is as it was.
fn replace(rt: &HostRuntime, path: &str, document: &str) -> io::Result<()> {
    let id = process::id(rt.process());
    let temporary = format!(in rt.alloc(); "{path}.{id}.tmp")?;
    let file = OpenOptions::new()
        .write(true)
        .create_new(true)
        .open(rt, temporary.as_str())?;
    let mut done = write_document(file, document);
    if done.is_ok() {
        done = fs::rename(rt, temporary.as_str(), path);
    }
    if done.is_err() {
        let _ = fs::remove_file(rt, temporary.as_str());
    }
    done
}

/// The documents that are to be saved into files, in the order of the `--save` options.
fn documents_for<L: LinkStore, A: Adapter>(
    rt: &HostRuntime,
    asked: &Asked,
    repository: &Repository<L, A>,
    watch: Watching<'_>,
) -> Result<Vec<Text>, Stop> {
    let mut documents = Vec::new(rt.alloc());
    for to in &asked.save {
        documents.push(document_for(rt, asked, repository, watch, to)?)?;
    }
    Ok(documents)
}

/// Saves the resources that the `--save` options name. If one of the resources is not found, or its save is refused, no file is written.
/// Otherwise the files are written in the order of the options, up to the first file that can't be written.
pub(crate) fn save_files<L: LinkStore, A: Adapter>(
    rt: &HostRuntime,
    asked: &Asked,
    repository: &Repository<L, A>,
    watch: Watching<'_>,
) -> Result<(), Stop> {
    let documents = documents_for(rt, asked, repository, watch)?;
    for (to, document) in asked.save.iter().zip(&documents) {
        let path = to.file.as_str();
        if let Err(error) = replace(rt, path, document.as_str()) {
            return Err(explained_write(rt, asked.names_files, path, error));
        }
    }
    Ok(())
}
