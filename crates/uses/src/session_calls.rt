//! A session driven by a method and by a command: both calls are one run of the machine.

ghost use Rattle.std.specs.Prelude.{true, [], ◌∷◌};
ghost use Rattle.bitmap_session.specs.Abstraction.{value_of};
ghost use Rattle.bitmap_session.specs.Machine.{RunsOn};

use bitmap_session::command::Command;
use bitmap_session::laws::{a_step_is_a_run, consecutive_runs_join};
use bitmap_session::reply::Reply;
use bitmap_session::session::Session;

/// Pushes a bit by a method, and pops it by a command. By two laws both calls are one run of two commands.
pub fn pushed_and_popped(session: &mut Session<8>) -> (Reply<8>, Reply<8>)
    ensures { RunsOn 8 session.old
        (Command.Push true ∷ Command.Pop ∷ [])
        (value_of result.0 ∷ value_of result.1 ∷ [])
        session.new }
{
    a_step_is_a_run::<8>();
    consecutive_runs_join::<8>();
    let pushed = session.push(true);
    let popped = session.serve(&Command::Pop);
    (pushed, popped)
}

#[cfg(test)]
mod tests {
    use super::*;

    #[test]
    fn pops_the_pushed_bit(rt: HostRuntime) {
        let mut session = Session::<8>::new(rt.alloc());
        assert!(rt; matches!(session.serve(&Command::Begin), Reply::Done));
        let (pushed, popped) = pushed_and_popped(&mut session);
        assert!(rt; matches!(pushed, Reply::Done) && matches!(popped, Reply::Bit(true)));
    }
}
