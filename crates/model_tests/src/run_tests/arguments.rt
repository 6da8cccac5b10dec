//! Command lines that give the options of a run, and command lines for which `clap` returns an error.
use clap::error::ErrorKind;
use command_line::{meta_file, options_of};
use std::alloc::Global;
use std::test::Fail;

#[test]
fn the_file_of_the_metamodel_is_read_from_the_words(rt: HostRuntime) -> Result<(), Fail> {
    let cases: [(&[&str], &str); 3] = [
        (&["mmrepo", "--meta", "a.json"], "a.json"),
        (&["mmrepo", "--meta=b.json"], "b.json"),
        (&["", "--meta", "c d"], "c d"),
    ];
    for (words, file) in &cases {
        assert_eq!(rt; meta_file(rt.alloc(), *words)?, *file);
    }
    Ok(())
}

#[test]
fn each_option_is_read_from_the_words(rt: HostRuntime) -> Result<(), Fail> {
    let words = [
        "mmrepo", "--meta", "a.json", "--number", "--script", "b.txt", "--strict", "--live",
    ];
    let options = options_of(rt.alloc(), &words)?;
    assert_eq!(rt; options.meta, "a.json");
    assert_eq!(rt; options.script, Some("b.txt"));
    assert!(rt; options.dress.number && options.strict);
    assert!(rt; !options.dress.echo && !options.dress.stop);
    assert!(rt; options.live && !options.explain);
    Ok(())
}

fn kind_of(alloc: Global, words: &[&str]) -> Option<ErrorKind> {
    match meta_file(alloc, words) {
        Ok(_) => None,
        Err(error) => Some(error.kind()),
    }
}

#[test]
fn other_words_are_refused(rt: HostRuntime) {
    let cases: [(&[&str], ErrorKind); 5] = [
        (&["mmrepo"], ErrorKind::MissingRequiredArgument),
        (
            &["mmrepo", "--meta", "a", "--meta", "b"],
            ErrorKind::ArgumentConflict,
        ),
        (
            &["mmrepo", "--meta", "a", "--other"],
            ErrorKind::UnknownArgument,
        ),
        (&["mmrepo", "--meta"], ErrorKind::InvalidValue),
        (&["mmrepo", "--help"], ErrorKind::DisplayHelp),
    ];
    for (words, kind) in &cases {
        assert_eq!(rt; kind_of(rt.alloc(), *words), Some(*kind));
    }
}
