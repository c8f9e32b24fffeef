// Laws only: what a thinning leaves, of the calls themselves, and a thinned trace replayed. The statements stand in specs/thin_kept.
