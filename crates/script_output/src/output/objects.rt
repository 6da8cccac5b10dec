//! What is printed for the objects and resources that a command returns.
ghost use Rattle.std.specs.Prelude.{◌≡◌, ◌++◌, OnOk};
ghost use Rattle.script_output.specs.Printed.{holder_text, objects_text, spaced_objects};

use super::Output;
use mm_types::{Node, ObjectNo};
use script_lines::grammar::SPACE;
use std::alloc::AllocError;

impl Output {
    /// Adds an object or a resource, or `null` if there is none.
    pub fn node_or_null(&mut self, node: Option<Node>) -> Result<(), AllocError>
        ensures ok { OnOk result (self.new ≡ self.old ++ holder_text node) }
    {
        match node {
            Some(node) => self.node(node),
            None => self.text("null"),
        }
    }

    /// Adds a list of objects: `[#1 #4]`.
    pub fn objects(&mut self, objects: &[ObjectNo]) -> Result<(), AllocError>
        ensures ok { OnOk result (self.new ≡ self.old ++ objects_text objects.now) }
    {
        match objects {
            [] => self.text("[]"),
            [first, others @ ..] => {
                self.text("[")?;
                self.node(Node::Object(*first))?;
                self.spaced_objects(others)?;
                self.text("]")
            }
        }
    }

    fn spaced_objects(&mut self, objects: &[ObjectNo]) -> Result<(), AllocError>
        ensures ok { OnOk result (self.new ≡ self.old ++ spaced_objects objects.now) }
    {
        for object in objects {
            self.byte(SPACE)?;
            self.node(Node::Object(*object))?;
        }
        Ok(())
    }
}
