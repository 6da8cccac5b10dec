//! The replies and the failures of commands.
ghost use Rattle.std.specs.Prelude.{◌≡◌};

use adapters::Adapter;
use mm_types::{AdapterNo, ClassNo, FeatureNo, ObjectNo, Refused, ResourceNo, Seq, Text, Value};
use notice_chain::Notice;
use snapshots::Snapshot;

/// The answer of a command that is done.
#[derive(Debug, Drop)]
pub enum Answer {
    /// The command is done, and has nothing to return: a set, an unset, an attach or a detach.
    Done,
    /// The object that was made, or the object that replaced a proxy.
    Object(ObjectNo),
    /// The resource that was made.
    Resource(ResourceNo),
    /// The value of a single feature, or the value that was taken out of a list or moved within a list.
    Value(Value),
    /// The values of a many-valued feature, in order.
    Values(Seq<Value>),
    /// Whether a feature is set, whether a list changed, or whether an adapter got or lost a target.
    Flag(bool),
    /// The class of an object.
    Class(ClassNo),
    /// How many notifications an adapter got, or keeps.
    Count(u64),
    /// How many objects were destroyed.
    Destroyed(u64),
    /// How many objects a load made.
    Loaded(u64),
    /// How many proxies were resolved (two at the ends of one link count as one), and how many are left.
    Resolved { done: u64, left: u64 },
    /// The object that contains a given object; `None` if no object contains it.
    Container(Option<ObjectNo>),
    /// The resource that an object is in; `None` if the object is in no resource.
    Within(Option<ResourceNo>),
    /// The features of an object that have too few values, in the order of all features of its class.
    Features(Seq<FeatureNo>),
    /// The object at an address, if one is there.
    Found(Option<ObjectNo>),
    /// The fragment of an object.
    Fragment(Text),
    /// The document of a resource.
    Document(Text),
    /// The objects that a node directly contains.
    Objects(Seq<ObjectNo>),
    /// The state of a node and of each node below it.
    Snapshot(Snapshot),
}

/// What a feature holds.
#[derive(Debug, Drop)]
pub enum FeatureValue {
    /// The value of a single feature. It is null if a reference is empty, or if a text attribute is null.
    One(Value),
    /// The values of a many-valued feature, in order.
    Many(Seq<Value>),
}

impl FeatureValue {
    ghost use Rattle.repository.specs.Answers.{got_answer};

    /// Converts what a feature holds into the answer of a command.
    pub(crate) fn into_answer(self) -> Answer
        ensures { result ≡ got_answer self }
    {
        match self {
            FeatureValue::One(value) => Answer::Value(value),
            FeatureValue::Many(values) => Answer::Values(values),
        }
    }
}

/// The reply of a command that is done.
#[derive(Drop)]
pub struct Reply<A = Box<dyn Adapter>> {
    pub answer: Answer,
    /// Which adapter was notified of what, in order.
    pub told: Seq<(AdapterNo, Notice)>,
    /// The adapters that the command released, each with its number.
    pub released: Seq<(AdapterNo, A)>,
}

/// The outcome of a change at an end. If the change notified no adapter, the outcome may be without a reply, since making a reply takes
/// longer than such a change.
#[derive(Drop)]
pub enum Brief<A = Box<dyn Adapter>> {
    /// The change was done and notified no adapter; or it was refused, and the error is the refusal.
    Unheard(Result<(), Refused>),
    /// The reply, or the refusal.
    Replied(Result<Reply<A>, Refused>),
}

/// The failure of a command that is refused.
#[derive(Drop)]
pub struct Failure<A = Box<dyn Adapter>> {
    pub refused: Refused,
    /// The adapter that the command was given, with the notifications that it had; `None` if the command was given none.
    pub given_back: Option<A>,
}
