// Laws only: what a yes, a no and a step other than zero of the exported calls say of the exact point, whatever the kind of its cone. No code.
