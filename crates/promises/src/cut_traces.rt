// Laws only: what is left of a trace that was cut at a byte, by which edition a record can be read, and what a rescue leaves, of the call
// itself. The statements stand in specs/cut_traces.
