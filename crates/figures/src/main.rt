// The figures of document 01 and the rows of the paper's Figure 7, each beside what the document or the paper says.
#![tactic(auto)]

fn main(rt: HostRuntime) {
    driver::run_script(rt);
}
