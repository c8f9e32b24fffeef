// Laws only: what a trace is given it gives back, of the calls themselves. The statements stand in specs/read_back.
