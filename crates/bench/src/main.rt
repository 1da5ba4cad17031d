// The bench program: reads a file of the rules' form from standard input and prints the rule's image, or the refusal.

#![tactic(auto)]

fn main(rt: HostRuntime) {
    desk::answer_file(&mut rt.stdin(), &mut rt.stdout(), &mut rt.stderr());
}
