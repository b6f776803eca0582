//! Names of nodes.

ghost use Rattle.std.specs.Prelude.{◌≡◌, ◌<◌, IfOk, OnOk, OnErr, length, option_map, string_bytes};
ghost use Rattle.std.specs.FinMap.{get, insert};

use super::Aig;
use aig_base::MemoryError;

impl Aig {
    /// Returns a copy of the name of the node of this number, or `None` where there is none.
    ///
    /// # Errors
    ///
    /// - `Memory`: memory was refused.
    pub fn get_symbol(&self, id: usize) -> Result<Option<String>, MemoryError>
        ensures { IfOk result (λ name. option_map string_bytes name ≡ get self.now.names id) }
    {
        match self.lists.names.get(&id) {
            Some(name) => Ok(Some(name.clone()?)),
            None => Ok(None),
        }
    }

    /// Names the node of this number, in place of an older name.
    ///
    /// A name may hold any text. A circuit whose inputs or latches have a name with a line feed isn't written.
    ///
    /// # Requirements
    ///
    /// - There is such a node (`has_node`).
    ///
    /// # Errors
    ///
    /// - `Memory`: memory was refused. The circuit stays as it was.
    pub fn set_symbol(&mut self, id: usize, name: &str) -> Result<(), MemoryError>
        requires { id < length self.old.nodes }
        ensures ok { OnOk result
            (self.new ≡ record self.old { names = insert self.old.names id name.now }) }
        ensures err { OnErr result (self.new ≡ self.old) }
    {
        let text = String::from_str(self.allocator(), name)?;
        self.lists.names.insert(id, text)?;
        Ok(())
    }
}
