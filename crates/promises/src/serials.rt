// Laws only: what serials promise to a caller. The theorems stand in specs/serials/Serials.
