// Drawn calls of every service, against what reference/ answers.
#![tactic(auto)]

fn main(rt: HostRuntime) {
    driver::run_script(rt);
}
