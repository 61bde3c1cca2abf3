// A program that answers a script: where the script comes from, and where its transcript goes.
#![tactic(auto)]

ghost use Rattle.std.specs.Prelude.{◌≡◌, ◌≤◌, ℕ, List, IfOk, string_bytes};
ghost use Rattle.std.specs.Process.{exit_status};
ghost use Rattle.program.specs.Programs.{Transcribed};

use anyhow::anyhow;
use std::alloc::{AllocError, Global};
use std::io::Read;
use std::process::ExitCode;
use std::{env, fs};

// What answers scripts.
pub trait Program {
    // What the program answers to the bytes of a script.
    ghost answers: { List ℕ → List ℕ };

    fn transcribe(heap: Global, script: &[u8]) -> Result<String, AllocError>
        ensures { IfOk result (λ s. string_bytes s ≡ answers script.now) };
}

// The bytes of the file that the one argument names, or of the standard input.
fn input(rt: &HostRuntime, usage: &'static str) -> anyhow::Result<Vec<u8>> {
    let mut args = env::args(rt)?;
    let _program = args.next();
    let Some(path) = args.next() else {
        let mut bytes = Vec::new(rt.alloc());
        rt.stdin().read_to_end(&mut bytes)?;
        return Ok(bytes);
    };
    if args.next().is_some() {
        return Err(anyhow!("usage: {usage}"));
    }
    fs::read(rt, path.as_str()).map_err(|e| anyhow!("{path}: {e}"))
}

fn print<P: Program>(rt: &HostRuntime, usage: &'static str) -> anyhow::Result<()>
    ensures { IfOk result (λ _. Transcribed P.answers) }
{
    let script = input(rt, usage)?;
    rt.print(P::transcribe(rt.alloc(), script.as_slice())?)?;
    Ok(())
}

// Prints the transcript of the program's script. The status is 0 only if there was one, and else 1.
pub fn run<P: Program>(rt: &HostRuntime, usage: &'static str) -> ExitCode
    ensures status { exit_status result ≤ 1 }
    ensures success { exit_status result ≡ 0 → Transcribed P.answers }
{
    match print::<P>(rt, usage) {
        Ok(()) => ExitCode::SUCCESS,
        Err(e) => {
            let _ = eprintln!(rt; "{e}");
            ExitCode::FAILURE
        }
    }
}
