// Every case of the services, the tool and the scripts, a line of text each.
#![tactic(auto)]

fn main(rt: HostRuntime) {
    driver::run_script(rt);
}
