//! Servers as processes.

use std::process::{Command, Processes, Stdio};
use std::rt::Runtime;

/// Shell scripts, in which `$0` is this program: words that are refused, and a worker whose standard input has ended.
const SCRIPTS: [&str; 9] = [
    "$0 0 --processes 0",
    "$0 0 --processes 65",
    "$0 0 --processes two",
    "$0 0 --processes",
    "$0 3 --processes 2",
    "$0 3 --keep",
    "$0 3 --worker",
    "$0 0 --worker --keep | wc -l",
    ": | timeout 20 $0 0 --worker | sed 's/[0-9]*$/Q/'",
];

/// Two processes serve at `$port`: `$server` is their parent, `$1` and `$2` are they, and their lines are in the files `$lines` and
/// `$errors`.
const SERVING: &str = "\
lines=$(mktemp); errors=$(mktemp)
$0 0 0 0 --processes 2 $options > $lines 2> $errors &
server=$!
until [ -s $lines ]; do sleep 0.1; done
read word port < $lines
set -- $(cat /proc/$server/task/$server/children)
";

/// The parent ends, and with it all others.
const SERVED: &str = "
kill $server
wait $server 2> /dev/null
echo $?
for _ in 1 2 3 4 5 6 7 8 9; do $0 ask $port 1 | grep -q '^0' && break; sleep 0.2; done
$0 ask $port 1
sed 's/pid [0-9]*/pid P/' $errors
rm $lines $errors
";

/// Both serve; the port is taken; one is killed, and the other goes on.
const PLAIN: [&str; 3] = [
    "$0 ask $port 40; sleep 0.5; sed 1d $lines | cut -d' ' -f1,2 | sort -u; grep -c received $lines",
    "$0 0 0 $port --processes 2; echo $?",
    "kill -9 $1; until [ -s $errors ]; do sleep 0.1; done; $0 ask $port 20; sleep 0.5; sed 1d $lines | cut -d' ' -f1,2 | sort -u",
];

/// Both are killed, and are started again.
const KEPT: &str =
    "kill $1; kill -9 $2; until [ $(grep -c again $errors) = 2 ]; do sleep 0.1; done; \
for _ in 1 2 3 4 5 6 7 8 9; do $0 ask $port 1 | grep -q '^1' && break; sleep 0.2; done; sleep 0.5; \
$0 ask $port 40; sleep 0.5; sed 1d $lines | cut -d' ' -f1,2 | sort -u; sort -k3,3n -k6,6 $errors | cut -d' ' -f1-3,6-; : > $errors";

/// Both are killed, and none is left.
const ENDED: &str =
    "kill -9 $1 $2; wait $server; echo $?; sed 's/pid [0-9]*/pid P/' $errors | sort; rm $lines $errors";

/// Of 1,500 lines those that nobody reads are counted at the end.
const UNREAD: &str =
    "errors=$(mktemp); $0 1500 2> $errors | { read word port; $0 ask $port 1500; sleep 2; \
lines=$(wc -l); read word left rest < $errors; echo $rest; expr $lines + $left; }; rm $errors";

fn run_script<R: Runtime + AllocGlobal + Processes>(
    rt: &R,
    program: &str,
    script: &str,
) -> anyhow::Result<()> {
    let mut command = Command::new(rt.alloc(), "/bin/sh")?;
    command.arg("-c")?;
    command.arg(script)?;
    command.arg(program)?;
    command.stdin(Stdio::null());
    let output = command.output(rt)?;
    let text = str::from_utf8(output.stdout.as_slice())?;
    let told = str::from_utf8(output.stderr.as_slice())?;
    let status = output.status;
    println!(rt; "{text}{told}{status}")?;
    Ok(())
}

// Two processes, and what is done with them.
fn run_served<R: Runtime + AllocGlobal + Processes>(
    rt: &R,
    program: &str,
    options: &str,
    script: &str,
    after: &str,
) -> anyhow::Result<()> {
    println!(rt; "$ {script}")?;
    let whole = format!(in rt.alloc(); "options={options}\n{SERVING}{script}{after}")?;
    run_script(rt, program, whole.as_str())
}

/// Runs each script, and prints it and what it writes.
pub(crate) fn run_rows<R: Runtime + AllocGlobal + Processes>(
    rt: &R,
    program: &str,
) -> anyhow::Result<()> {
    for script in SCRIPTS {
        println!(rt; "$ {script}")?;
        run_script(rt, program, script)?;
    }
    for script in PLAIN {
        run_served(rt, program, "", script, SERVED)?;
    }
    run_served(rt, program, "--keep", KEPT, SERVED)?;
    run_served(rt, program, "", ENDED, "")?;
    println!(rt; "$ {UNREAD}")?;
    run_script(rt, program, UNREAD)
}
