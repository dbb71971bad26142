// The second pass: what is said is put into a room that is known to hold it.
ghost use Rattle.std.specs.Prelude.{◌≡◌, ◌≤◌, ◌++◌, length, drop};
ghost use Rattle.code.specs.Step.{decode};
ghost use Rattle.code.specs.Code.{says};
ghost use Rattle.render.specs.View.{env_of};

use crate::saying::Saying;
use crate::writer::Writer;

impl Saying<'_, '_, '_, '_> {
    // What is said is put at the front of a room that holds it.
    pub(crate) fn put(mut self, room: &mut [u8])
        requires { length (says decode (env_of self.env) self.left.bytes.now) ≤ length room.old }
        ensures { room.new ≡ says decode (env_of self.entry.env) self.entry.left.bytes.now ++ drop (length (says decode (env_of self.entry.env) self.entry.left.bytes.now)) room.old }
    {
        let budget = self.left.bytes.len();
        let mut writer = Writer { room, at: 0 };
        // Within as many steps as there are bytes good code comes to its end.
        let _ = self.walk(budget, &mut writer);
    }
}
