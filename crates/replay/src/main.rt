// Checks the files of data/: the small ones that break one rule each, and some of the corpus. vectors/replay.py wrote them and says what is expected.
#![tactic(auto)]

fn main(rt: HostRuntime) {
    checking::run(&rt);
}
