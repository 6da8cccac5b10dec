//! The texts of `--help` and `--version`.

/// What `--version` says after the program's name.
pub(crate) const VERSION: &str = "1.0";

/// What `--help` says before the options.
pub(crate) const ABOUT: &str =
    "Runs a script over a repository of objects whose classes a metamodel gives.";

/// The help text of `--script`.
pub(crate) const SCRIPT: &str = "The script, instead of standard input";

/// The help text of `--load`.
pub(crate) const LOAD: &str =
    "Makes a resource of a URI before the script, and loads the document of a file";

/// The help text of `--save`.
pub(crate) const SAVE: &str = "Writes the document of a resource into a file after the script";

/// The help text of `--echo`.
pub(crate) const ECHO: &str = "Writes each line before its answer, as `> LINE`";

/// The help text of `--number`.
pub(crate) const NUMBER: &str =
    "Begins each line of an answer with the number of its line, as `7: ok`";

/// The help text of `--stop`.
pub(crate) const STOP: &str = "Ends the run after the first line that is refused or bad";

/// The help text of `--strict`.
pub(crate) const STRICT: &str = "Exits with status 4 if a line was refused or bad";

/// The help text of `--live`.
pub(crate) const LIVE: &str =
    "Answers each line before it reads the next, with an empty line after it";

/// The help text of `--journal`.
pub(crate) const JOURNAL: &str =
    "Keeps the lines that change the model in a file, and begins with those kept (with --live)";

/// The help text of `--explain`.
pub(crate) const EXPLAIN: &str = "Says on standard error what to fix";

/// What `--help` says after the options.
pub(crate) const EXPLAINED: &str = "\
The metamodel is a JSON document. What each line of the script answers is printed:

  new Book                 makes an object of a class: its number, as #0
  set #0 name \"Emma\"       sets a feature of one value: ok
  get #0 name              what a feature has: \"Emma\", and of a list [\"a\" \"b\"]
  unset #0 name            takes a feature back to its default, and empties a list: ok
  isset #0 name            whether a feature is set: false
  add #0 tags \"a\"          puts a value at the end of a list: true, or false if it was not put in
  add #0 tags \"b\" 0        puts a value at an index of a list, counted from 0: true
  remove #0 tags 0         takes the value at an index out of a list: \"b\"
  removevalue #0 tags \"a\"  takes a value out of a list: true, or false if it is not there
  move #0 tags 0 2         moves the value at index 2 of a list to index 0: \"c\"
  class #0                 the class of an object: class Book
  container #0             the object that contains an object: #3, or null
  contents #0              the objects that an object directly contains: [#1 #2]
  delete #0                destroys an object and all that is below it: deleted 1
  validate #0              the features that have fewer values than they should: [favourite]
  resource \"http://m.example/a\"  makes a resource of a URI: its number, as r0
  add r0 contents #0       puts an object into a resource: true
  within #0                the resource that an object is in: r0, or null
  fragment #0              the fragment of an object in its resource: \"//@books.0\"
  at \"http://m.example/a#/\"  the object at an address: #0, or null
  save r0                  the document of a resource, in one line
  load r0 {\"format\":2,\"roots\":[]}  makes what a document says in an empty resource: loaded 0
  resolve #2 likes 0       replaces a proxy by the object that it finds: #1
  resolveall               does so with every proxy that finds one: resolved 3 left 0
  attach A1 #0 flat        attaches an adapter, A1 to A8 (--live: A1000), to be notified of changes: ok
  watch A1 r0 deep         gives it one target more, here with all that is below it: true
  unwatch A1 #0            takes a target from it; with its last one it is released: true
  detach A1                takes all its targets: ok, its last notifications, and how many it got
  seen A1                  how many notifications an adapter got and keeps: seen 3 kept 3

Instead of an object, contents, attach, watch, unwatch and the lines of a feature, but resolve,
take a resource too, as r0, whose one feature is contents. A value is null, true, false, a number,
a JSON string, :LITERAL or #N; a proxy, which a load leaves for an object of another resource, is
printed as `proxy \"http://m.example/b#/\"`.

After an answer comes a line for each notification of an adapter, and then one for each
adapter that was released. A line that can't be done prints why, as `refused 8 TYPE`, and changes
nothing; a line that does not parse prints `bad line`; an empty line prints nothing.

Example: printf 'new Book\\nset #0 name \"Emma\"\\nget #0 name\\n' | mmrepo --meta library.json
Exit status: 0 the script was run, 1 the metamodel or the journal is refused, 2 wrong arguments,
3 the run stopped because a stream or the journal failed, the input is too long or memory was
refused, 4 as --strict says, 5 a resource is not loaded or not saved.";
